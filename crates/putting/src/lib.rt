// Bytes put one after another into a lent buffer, as text and sheets are written.
#![tactic(auto)]

ghost use Rattle.putting.specs.Putting.{Put, Fits};

// Puts bytes at a place, and answers the place behind them. Not by `copy_from_slice`, which compares addresses: their width is
// another in a browser, for which the compiled module is compiled once more.
pub fn put_bytes(out: &mut [u8], at: usize, bytes: &[u8]) -> usize
    requires { Fits out.old at bytes.now }
    ensures { Put out.old at bytes.now out.new result }
{
    for i in 0..bytes.len() {
        out[at + i] = bytes[i];
    }
    at + bytes.len()
}
