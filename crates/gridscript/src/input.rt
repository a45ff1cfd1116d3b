//! What the program is given: its arguments and its input.
ghost use Rattle.std.specs.Prelude.{◌≡◌, ◌↔◌, [], ◌∷◌, true, false, map, codes, string_bytes, IfOk, IfSome};

use crate::ending::Ending;
use std::alloc::Allocator;
use std::io::Read;
use std::rt::Env;
use std::{env, io};

// Within how many reads an input has to end, 4 GiB where each read is full. Any number of this size does.
const READS: u32 = 1_048_576;

// How many bytes a read asks for. Any number of this size does.
const READ_LEN: usize = 4096;

/// Returns the arguments after the program's name. One that isn't text ends the program as bad arguments do.
pub fn arguments<R: Env + AllocGlobal>(rt: &R) -> Result<Vec<String>, Ending> {
    match env::args(rt) {
        Ok(args) => Ok(args.skip(1).collect(rt.alloc())?),
        Err(error) if error.kind() == io::ErrorKind::InvalidData => Err(Ending::Usage),
        Err(error) => Err(Ending::from(error)),
    }
}

/// Returns whether the arguments after the program's name ask for a deferred run, or `None` where they are neither none
/// nor the word `deferred`.
pub fn mode(args: &[String]) -> Option<bool>
    ensures plain { (result ≡ Some false) ↔ (args.now ≡ []) }
    ensures deferred { (result ≡ Some true) ↔ (map string_bytes args.now ≡ codes "deferred" ∷ []) }
{
    match args {
        [] => Some(false),
        [word] if word.as_str() == "deferred" => Some(true),
        _ => None,
    }
}

/// Returns the bytes of the reader up to its end.
///
/// Fails: if reading or allocation fails, or the end doesn't come within `READS` reads.
pub fn read_all<A: Allocator, R: Read>(alloc: A, reader: &mut R) -> io::Result<Vec<u8, A>>
    ensures { IfOk result (λ bytes. IfSome (R.remaining reader.old) (λ left. bytes.items ≡ left)) }
{
    let mut bytes = Vec::new(alloc);
    let mut buf = [0u8; READ_LEN];
    for _ in 0..READS {
        match reader.read(&mut buf) {
            Ok(0) => return Ok(bytes),
            Ok(len) => bytes.extend_from_slice(&buf[..len])?,
            Err(error) if error.kind() == io::ErrorKind::Interrupted => {}
            Err(error) => return Err(error),
        }
    }
    Err(io::Error::from(io::ErrorKind::FileTooLarge))
}
