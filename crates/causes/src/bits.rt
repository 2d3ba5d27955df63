// A bit added to the bytes of the cells that are marked.
ghost use Rattle.std.specs.Prelude.{◌≡◌, ◌+◌, ◌≤◌, eqb, length};
ghost use Rattle.routing_resources.specs.Marks.{is_marked};
ghost use Rattle.causes.specs.Causes.{bit_for, own_bit, BitFree, BitAdded};

// A byte, with the bit where the mark is set.
fn with_bit(cause: u8, bit: u8, mark: u8) -> u8
    requires { cause + bit ≤ 255 }
    ensures { result ≡ cause + bit_for bit (eqb mark 1) }
{
    if mark == routing_resources::MARKED {
        cause + bit
    } else {
        cause
    }
}

// Adds a bit, which no byte has yet, where a cell is marked.
pub fn add_bit(marks: &[u8], bit: u8, causes: &mut [u8])
    requires bit_free { BitFree (length marks.now) bit causes.old }
    requires bit_le_own_bit { bit ≤ own_bit }
    ensures { BitAdded (length marks.now) bit (is_marked marks.now) causes.old causes.new }
{
    for (v, mark) in marks.iter().enumerate() {
        causes[v] = with_bit(causes[v], bit, *mark);
    }
}
