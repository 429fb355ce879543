// The reader of trees on examples.
use algebra::Refusal;
use trees::reader::{Tree, read_tree};

// The number of the refusal.
fn refusal(bytes: &[u8]) -> Option<u8> {
    read_tree(bytes).err().map(|refusal| refusal.code())
}

// The tree is granted with that many events and that source text.
fn gives(bytes: &[u8], events: u8, text: &[u8]) -> bool {
    read_tree(bytes).is_ok_and(|tree| tree.events == events && tree.source.as_bytes() == text)
}

// The length of the source text.
fn length(bytes: &[u8]) -> Option<usize> {
    let tree = read_tree(bytes).ok()?;
    Some(tree.source.as_bytes().len())
}

// The length of the source text of a tree that is handed over.
fn text_length(tree: Tree) -> usize {
    tree.source.as_bytes().len()
}

// A tree is handed over twice, so it is copied.
fn handed_over_twice(tree: Tree) -> usize {
    let first = text_length(tree);
    let second = text_length(tree);
    first.max(second)
}

#[test]
fn a_tree_is_copied(rt: HostRuntime) {
    let long = read_tree(b"\x02\x01\x07\x02\x00\x01").map(|tree| handed_over_twice(tree));
    assert!(rt; long == Ok(5));
}

#[test]
fn every_kind_has_its_text(rt: HostRuntime) {
    assert!(rt; gives(b"\x02\x01\x06\x00\x01", 2, b"+ab"));
    assert!(rt; gives(b"\x02\x01\x07\x00\x00\x01", 2, b"+ab"));
    assert!(rt; gives(b"\x02\x01\x07\x01\x00\x01", 2, b"*ab"));
    assert!(rt; gives(b"\x02\x01\x07\x02\x00\x01", 2, b"*b[ab"));
    assert!(rt; gives(b"\x02\x01\x07\x03\x00\x01", 2, b"<ab"));
    assert!(rt; gives(b"\x03\x02\x07\x04\x00\x01\x07\x01\x01\x02", 3, b"*+bac"));
}

#[test]
fn gates_and_triggers_stand_in_one_another(rt: HostRuntime) {
    assert!(rt; gives(b"\x02\x02\x07\x03\x00\x01\x07\x01\x40\x40", 2, b"*<ab<ab"));
    assert!(rt;
        gives(
            b"\x03\x03\x07\x04\x00\x02\x07\x04\x01\x02\x06\x02\x02",
            3,
            b"+++cab++cab",
        )
    );
    assert!(rt;
        gives(
            b"\x03\x03\x07\x01\x00\x01\x07\x04\x40\x02\x07\x03\x02\x00",
            3,
            b"<+c*aba",
        )
    );
}

#[test]
fn forms_and_counts_are_refused(rt: HostRuntime) {
    assert!(rt; refusal(b"") == Some(1));
    assert!(rt; refusal(b"\x00") == Some(1));
    assert!(rt; refusal(b"\x00\x01\x06\x00\x01") == Some(2));
    assert!(rt; refusal(b"\x19\x01\x06\x00\x01") == Some(2));
    assert!(rt; refusal(b"\x02\x00") == Some(2));
    assert!(rt; refusal(b"\x02\x21\x06\x00\x01") == Some(2));
    assert!(rt; refusal(b"\x02\x01\x06\x00") == Some(1));
    assert!(rt; refusal(b"\x02\x01\x0e\x00\x01") == Some(1));
    assert!(rt; refusal(b"\x02\x01\x02\x00") == Some(1));
    assert!(rt; refusal(b"\x02\x01\x07\x05\x00\x01") == Some(1));
    assert!(rt; refusal(b"\x02\x01\x06\x00\x01\x09") == Some(1));
}

#[test]
fn inputs_and_dependents_are_refused(rt: HostRuntime) {
    assert!(rt; refusal(b"\x02\x01\x06\x00\x02") == Some(3));
    assert!(rt; refusal(b"\x02\x01\x06\x00\x40") == Some(3));
    assert!(rt; refusal(b"\x02\x02\x07\x04\x00\x01\x06\x00\x40") == Some(3));
    assert!(rt; refusal(b"\x02\x01\x07\x04\x00\xc8") == Some(3));
    assert!(rt; refusal(b"\x02\x02\x06\x00\x01\x07\x04\x00\x40") == Some(4));
    assert!(rt; refusal(b"\x02\x01\x07\x04\x00\x00") == Some(4));
    assert!(rt; refusal(b"\x03\x02\x07\x01\x01\x02\x07\x04\x00\x01") == Some(4));
    assert!(rt; refusal(b"\x03\x02\x07\x04\x00\x01\x07\x04\x02\x00") == Some(4));
    assert!(rt; refusal(b"\x02\x01\x07\x04\x00\x01") == Some(6));
    assert!(rt; refusal(b"\x02\x01\x07\x04\x00\x01\x00") == Some(1));
}

#[test]
fn trees_reach_their_limits(rt: HostRuntime) {
    assert!(rt;
        gives(
            b"\x18\x20\x06\x00\x01\x06\x40\x02\x06\x41\x03\x06\x42\x04\x06\x43\x05\x06\x44\x06\x06\x45\x07\x06\x46\x08\x06\x47\x09\x06\x48\x0a\x06\x49\x0b\x06\x4a\x0c\x06\x4b\x0d\x06\x4c\x0e\x06\x4d\x0f\x06\x4e\x10\x06\x4f\x11\x06\x50\x12\x06\x51\x13\x06\x52\x14\x06\x53\x15\x06\x54\x16\x06\x55\x17\x06\x56\x00\x06\x57\x00\x06\x58\x00\x06\x59\x00\x06\x5a\x00\x06\x5b\x00\x06\x5c\x00\x06\x5d\x00\x06\x5e\x00",
            24,
            b"++++++++++++++++++++++++++++++++abcdefghijklmnopqrstuvwxaaaaaaaaa",
        )
    );
    assert!(rt;
        length(
            b"\x01\x08\x06\x00\x00\x06\x40\x40\x06\x41\x41\x06\x42\x42\x06\x43\x43\x06\x44\x44\x06\x45\x45\x06\x46\x46",
        ) == Some(511)
    );
    assert!(rt;
        refusal(
            b"\x01\x09\x06\x00\x00\x06\x40\x40\x06\x41\x41\x06\x42\x42\x06\x43\x43\x06\x44\x44\x06\x45\x45\x06\x46\x46\x06\x47\x00",
        ) == Some(5)
    );
    assert!(rt;
        refusal(
            b"\x02\x09\x06\x00\x00\x06\x40\x40\x06\x41\x41\x06\x42\x42\x06\x43\x43\x06\x44\x44\x06\x45\x45\x06\x46\x46\x07\x04\x47\x01",
        ) == Some(5)
    );
}
