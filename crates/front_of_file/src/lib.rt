// The front of a file, which is all that the programs read of one.
#![tactic(auto)]

ghost use Rattle.std.specs.Prelude.{◌≤◌, vec_len, IfOk};

use std::alloc::Global;
use std::fs::File;
use std::io::{self, Read};
use std::rt::Files;

// How much of a file is read.
const MOST_BYTES: u64 = 60_000;

// The first 60,000 bytes of a file, or all where it has fewer. `take` stops the reading there, but promises a bound only
// where the bytes are known beforehand, and those of a file are not. So the bound of the result comes from `truncate`.
pub fn read(files: &impl Files, alloc: Global, name: &str) -> io::Result<Vec<u8>>
    ensures { IfOk result (λ bytes. vec_len bytes ≤ 60000) }
{
    let mut bytes = Vec::new(alloc);
    File::open(files, name)?
        .take(MOST_BYTES)
        .read_to_end(&mut bytes)?;
    bytes.truncate(MOST_BYTES as usize);
    Ok(bytes)
}

#[cfg(test)]
mod tests {
    use super::read;
    use std::test::Fail;

    #[test]
    fn a_long_file_is_cut(rt: HostRuntime) -> Result<(), Fail> {
        let front = read(&rt, rt.alloc(), "/dev/zero")?;
        assert_eq!(rt; front.len(), 60_000);
        Ok(())
    }

    #[test]
    fn an_empty_file_gives_nothing(rt: HostRuntime) -> Result<(), Fail> {
        let front = read(&rt, rt.alloc(), "/dev/null")?;
        assert!(rt; front.is_empty());
        Ok(())
    }

    #[test]
    fn no_file_is_told(rt: HostRuntime) {
        assert!(rt; read(&rt, rt.alloc(), "/dev/null/none").is_err());
    }
}
