// What a program reads of a file.
#![tactic(auto)]

ghost use Rattle.std.specs.Prelude.{◌≡◌, ◌≤◌, IfOk, IfSome, take, vec_len};

use std::alloc::Global;
use std::io::Read;
use std::{fs, io};

// A file is judged by its first 65,536 bytes.
const MOST: usize = 65536;

// At most so many bytes of the source, from its first on. For any number, so that a wrong one is
// refused where it is named.
fn up_to<R: Read>(most: usize, heap: Global, source: &mut R) -> io::Result<Vec<u8>>
    ensures within { IfOk result (λ v. vec_len v ≤ most) }
    ensures first { IfOk result (λ v. IfSome (R.remaining source.old) (λ xs. v.items ≡ take most xs)) }
{
    let mut bytes = Vec::with_capacity(heap, most)?;
    source.take(most as u64).read_to_end(&mut bytes)?;
    // Of a source whose bytes are unknown no bound is promised, so the cut stands here too.
    bytes.truncate(most);
    Ok(bytes)
}

// The first bytes of the source, or all of it where it has fewer.
pub fn first_bytes<R: Read>(heap: Global, source: &mut R) -> io::Result<Vec<u8>>
    ensures within { IfOk result (λ v. vec_len v ≤ 65536) }
    ensures first { IfOk result (λ v. IfSome (R.remaining source.old) (λ xs. v.items ≡ take 65536 xs)) }
{
    up_to(MOST, heap, source)
}

// The first bytes of the file of that name.
pub fn first_bytes_of(rt: &HostRuntime, path: &str) -> io::Result<Vec<u8>>
    ensures { IfOk result (λ v. vec_len v ≤ 65536) }
{
    first_bytes(rt.alloc(), &mut fs::open(rt, path)?)
}
