ghost use Rattle.std.specs.Prelude.{◌≤◌, length, Some};
ghost use Rattle.nb_host.specs.Calls.{ReadsPage, ReadsBytes};

/// Reads a whole page, or nothing where the bytes end before the page does.
pub fn read_whole(bytes: &[u8], at: usize, into: &mut [u8]) -> bool
    ensures { ReadsPage (Some bytes.now) at into.old into.new result }
{
    if at > bytes.len() || bytes.len() - at < into.len() {
        return false;
    }
    into.copy_from_slice(&bytes[at..at + into.len()]);
    true
}

/// Reads as many bytes from that place on as there are, and room for.
pub fn read_part(bytes: &[u8], at: usize, into: &mut [u8]) -> usize
    ensures room { result ≤ length into.old }
    ensures read { ReadsBytes (Some bytes.now) at into.old into.new result }
{
    if at >= bytes.len() {
        return 0;
    }
    let rest = &bytes[at..];
    let count = rest.len().min(into.len());
    into[..count].copy_from_slice(&rest[..count]);
    count
}
