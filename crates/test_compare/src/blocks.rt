// Blocks on standard input: each is its length in four bytes, lowest first, then so many bytes.
ghost use Rattle.std.specs.Prelude.{◌≤◌, length, IfSome};

use std::io::Read;
use streams::read_full;

// Reads a block to the start of `block`; none at the end of the input, and none that is longer than `block`.
pub(crate) fn read<'a, R: Read>(reader: &mut R, block: &'a mut [u8]) -> Option<&'a [u8]>
    ensures { IfSome result (λ read. length read.now ≤ length block.old) }
{
    let length = length(reader)?;
    let n = read_full(reader, block.get_mut(..length)?);
    block.get(..n)
}

// The length of the block that comes; none at the end of the input.
fn length<R: Read>(reader: &mut R) -> Option<usize> {
    let mut header = [0u8; 4];
    if read_full(reader, &mut header) < header.len() {
        return None;
    }
    // std has no `From<u32>` for usize.
    Some(u32::from_le_bytes(header) as usize)
}
