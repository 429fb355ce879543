// Steps, run: each rule both ways, the longest texts, each refusal, and files of steps.
use crate::sums::long_sum;
use algebra::Refusal;
use std::alloc::{AllocError, Global};
use std::process::Abort;
use std::test::Fail;
use steps::file::{apply_steps, next_record};
use steps::refusal::StepRefusal;
use steps::stepping::apply_step;
use texts::text::Text;

fn text_of(rt: &impl Abort, bytes: &[u8]) -> Text {
    let mut text = Text::empty();
    assert!(rt; text.append(bytes).is_ok());
    text
}

// The step of the record leads from one text to the other, in a tree with three events.
fn leads(rt: &impl Abort, old: &[u8], bytes: &[u8], new: &[u8]) -> Result<(), Fail> {
    let text = text_of(rt, old);
    let made = apply_step(&text, 3, bytes)?;
    assert!(rt; made.as_bytes() == new);
    Ok(())
}

// The number of the refusal of a step.
fn code_of(rt: &impl Abort, old: &[u8], bytes: &[u8]) -> Option<u8> {
    let text = text_of(rt, old);
    apply_step(&text, 3, bytes)
        .err()
        .map(|refusal| refusal.code())
}

#[test]
fn one_step_after_the_other(rt: HostRuntime) -> Result<(), Fail> {
    leads(&rt, b"*b[ab", &[0x05, 0x0c, 0x00, 0x02], b"*b+<ab=ab")?;
    leads(&rt, b"*b+<ab=ab", &[0x01, 0x09], b"+*b<ab*b=ab")
}

// A rule with a, b and c for X, Y and Z.
#[derive(Clone, Copy)]
struct Sides {
    left: &'static [u8],
    right: &'static [u8],
}

// The rules in order, from 1.
const SHEET: [Sides; 42] = [
    Sides {
        left: b"+ab",
        right: b"+ba",
    },
    Sides {
        left: b"++abc",
        right: b"+a+bc",
    },
    Sides {
        left: b"+aa",
        right: b"a",
    },
    Sides {
        left: b"+aN",
        right: b"a",
    },
    Sides {
        left: b"*ab",
        right: b"*ba",
    },
    Sides {
        left: b"**abc",
        right: b"*a*bc",
    },
    Sides {
        left: b"*aa",
        right: b"a",
    },
    Sides {
        left: b"*aN",
        right: b"N",
    },
    Sides {
        left: b"*a+bc",
        right: b"+*ab*ac",
    },
    Sides {
        left: b"+a*ab",
        right: b"a",
    },
    Sides {
        left: b"+a*bc",
        right: b"*+ab+ac",
    },
    Sides {
        left: b"[ab",
        right: b"+<ab=ab",
    },
    Sides {
        left: b"=ab",
        right: b"=ba",
    },
    Sides {
        left: b"<aa",
        right: b"N",
    },
    Sides {
        left: b"=aa",
        right: b"a",
    },
    Sides {
        left: b"<Na",
        right: b"N",
    },
    Sides {
        left: b"<aN",
        right: b"a",
    },
    Sides {
        left: b"=aN",
        right: b"N",
    },
    Sides {
        left: b"<+abc",
        right: b"+<ac<bc",
    },
    Sides {
        left: b"<*abc",
        right: b"*<ac<bc",
    },
    Sides {
        left: b"<a+bc",
        right: b"*<ab<ac",
    },
    Sides {
        left: b"<a*bc",
        right: b"+<ab<ac",
    },
    Sides {
        left: b"=a+bc",
        right: b"+*=ab[bc*=ac[cb",
    },
    Sides {
        left: b"=a*bc",
        right: b"+*=ab[cb*=ac[bc",
    },
    Sides {
        left: b"*ab",
        right: b"++*b<ab*a<ba=ab",
    },
    Sides {
        left: b"*<ab<ba",
        right: b"N",
    },
    Sides {
        left: b"*<ab=ab",
        right: b"N",
    },
    Sides {
        left: b"*=ab=bc",
        right: b"*=ab=ac",
    },
    Sides {
        left: b"*<ab<bc",
        right: b"**<ab<bc<ac",
    },
    Sides {
        left: b"*<ab=ac",
        right: b"*=ac<cb",
    },
    Sides {
        left: b"*<ba=ac",
        right: b"*<bc=ac",
    },
    Sides {
        left: b"<<abc",
        right: b"*<ab<ac",
    },
    Sides {
        left: b"<a<bc",
        right: b"+<ab*a[cb",
    },
    Sides {
        left: b"=<abc",
        right: b"*<ab=ac",
    },
    Sides {
        left: b"==abc",
        right: b"*=ab=ac",
    },
    Sides {
        left: b"<=abc",
        right: b"*=ab<ac",
    },
    Sides {
        left: b"<a=bc",
        right: b"+<ab+*a<bc*a<cb",
    },
    Sides {
        left: b"*a<ab",
        right: b"<ab",
    },
    Sides {
        left: b"+a<ab",
        right: b"a",
    },
    Sides {
        left: b"*a=ab",
        right: b"=ab",
    },
    Sides {
        left: b"+a=ab",
        right: b"a",
    },
    Sides {
        left: b"a",
        right: b"++<ab=ab*a<ba",
    },
];

// Whether the new side has a letter that the old side has not.
fn lacks(old: &[u8], new: &[u8], letter: u8) -> bool {
    new.contains(&letter) && !old.contains(&letter)
}

// The record of a step at the place 0 that leads from one side to the other.
fn record_of(
    heap: Global,
    rule: u8,
    way: u8,
    old: &[u8],
    new: &[u8],
) -> Result<Vec<u8>, AllocError> {
    let mut map = 3;
    let mut terms = Vec::new(heap);
    for (letter, bit) in [(b'a', 8), (b'b', 16), (b'c', 32)] {
        if lacks(old, new, letter) {
            map |= bit;
            terms.extend_from_slice(&[1, letter])?;
        }
    }
    let mut bytes = [map, rule, way].to_vec(heap)?;
    bytes.extend_from_slice(terms.as_slice())?;
    Ok(bytes)
}

#[test]
fn each_rule_both_ways(rt: HostRuntime) -> Result<(), Fail> {
    for (rule, s) in (1u8..).zip(&SHEET) {
        let forward = record_of(rt.alloc(), rule, 0, s.left, s.right)?;
        leads(&rt, s.left, &forward, s.right)?;
        let backward = record_of(rt.alloc(), rule, 1, s.right, s.left)?;
        leads(&rt, s.right, &backward, s.left)?;
    }
    Ok(())
}

#[test]
fn the_longest_text(rt: HostRuntime) -> Result<(), Fail> {
    // One whole term of 257 bytes, and one of 255 without its ends.
    let sum: [u8; 257] = long_sum(128);
    let short = &sum[1..256];
    let text = text_of(&rt, short);
    let made = apply_step(&text, 1, &[3, 3, 1])?;
    let bytes = made.as_bytes();
    assert!(rt; bytes.len() == 511);
    assert!(rt; bytes[0] == b'+' && &bytes[1..256] == short && &bytes[256..511] == short);
    assert_eq!(rt; code_of(&rt, &sum, &[3, 3, 1]), Some(16));
    Ok(())
}

#[test]
fn a_record_breaks_its_form(rt: HostRuntime) {
    assert_eq!(rt; code_of(&rt, b"+ab", &[]), Some(12), "no map");
    assert_eq!(rt; code_of(&rt, b"+ab", &[0]), Some(12), "no rule");
    assert_eq!(rt; code_of(&rt, b"+ab", &[0x41, 1]), Some(12), "bit 6");
    assert_eq!(rt; code_of(&rt, b"+ab", &[1, 0]), Some(12), "rule 0");
    assert_eq!(rt; code_of(&rt, b"+ab", &[1, 43]), Some(12), "rule 43");
    assert_eq!(rt; code_of(&rt, b"+ab", &[3, 1, 2]), Some(12), "way 2");
    assert_eq!(rt; code_of(&rt, b"+ab", &[5, 1, 0]), Some(12), "half a place");
    assert_eq!(rt;
        code_of(&rt, b"+ab", &[1, 1, 0]),
        Some(12),
        "bytes left over"
    );
    assert_eq!(rt; code_of(&rt, b"a", &[0x11, 42, 0]), Some(12), "length 0");
    assert_eq!(rt;
        code_of(&rt, b"a", &[0x11, 42, 2, b'b']),
        Some(12),
        "a term cut off"
    );
    assert_eq!(rt;
        code_of(&rt, b"a", &[0x11, 42, 1, b'+']),
        Some(12),
        "no whole term"
    );
    assert_eq!(rt;
        code_of(&rt, b"a", &[0x11, 42, 2, b'b', b'b']),
        Some(12),
        "two terms"
    );
    assert_eq!(rt;
        code_of(&rt, b"a", &[0x11, 42, 1, b'd']),
        Some(12),
        "no event of the tree"
    );
}

#[test]
fn each_other_refusal(rt: HostRuntime) -> Result<(), Fail> {
    assert_eq!(rt; StepRefusal::NoTree.code(), 11);
    assert_eq!(rt; code_of(&rt, b"a", &[1, 42]), Some(13), "a lacked term");
    assert_eq!(rt;
        code_of(&rt, b"+ab", &[9, 1, 1, b'a']),
        Some(13),
        "a term too many"
    );
    assert_eq!(rt;
        code_of(&rt, b"a", &[0x15, 42, 0, 1, 1, b'b']),
        Some(14),
        "at the end"
    );
    assert_eq!(rt;
        code_of(&rt, b"a", &[5, 42, 0, 9]),
        Some(13),
        "13 comes before 14"
    );
    assert_eq!(rt; code_of(&rt, b"+ab", &[1, 5]), Some(15), "another operator");
    assert_eq!(rt; code_of(&rt, b"+ab", &[1, 3]), Some(15), "two terms for X");
    assert_eq!(rt;
        code_of(&rt, b"++aba", &[5, 3, 0, 1]),
        Some(15),
        "the second place of X"
    );
    leads(&rt, b"+b+aa", &[5, 3, 0, 2], b"+ba")
}

#[test]
fn a_file_of_steps(rt: HostRuntime) -> Result<(), Fail> {
    let file = [0, 4, 0x05, 0x0c, 0, 2, 0, 2, 0x01, 0x09, 0, 2, 0x01, 3];
    let text = text_of(&rt, b"*b[ab");
    let made = apply_steps(text, 2, &file[..10])?;
    assert!(rt; made.as_bytes() == b"+*b<ab*b=ab".as_slice());
    let fault = apply_steps(text, 2, &file).err().ok_or("granted")?;
    assert_eq!(rt; fault.step, 3);
    assert_eq!(rt; fault.refusal.code(), 15);
    let fault = apply_steps(text, 2, &file[..9]).err().ok_or("granted")?;
    assert_eq!(rt; fault.step, 2);
    assert_eq!(rt; fault.refusal.code(), 12);
    Ok(())
}

#[test]
fn the_records_of_a_file(rt: HostRuntime) -> Result<(), Fail> {
    let (bytes, rest) = next_record(&[0, 1, 7, 0])?.ok_or("no record")?;
    assert!(rt; bytes == [7].as_slice() && rest == [0].as_slice());
    assert!(rt; next_record(rest).is_err());
    assert!(rt; next_record(&[])?.is_none());
    Ok(())
}
