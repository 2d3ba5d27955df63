// Whose each cell is: 0 for nobody's, else one more than the net's number.
ghost use Rattle.std.specs.Prelude.{◌≡◌, ◌+◌, ◌<◌, ◌^◌, length};
ghost use Rattle.laying.specs.Laying.{owned_by, overlap_of};
ghost use Rattle.laying.specs.Bearing.{meets};

use routing_resources::MARKED;

// Whether the net occupies the cell and a lower net owns it.
fn meets(occupied: u8, owner: u32) -> bool
    ensures { result ≡ meets occupied owner }
{
    occupied == MARKED && owner != 0
}

// The least cell that the net occupies and a lower net owns: number 16 with it, where there is one.
pub fn overlap(occupied: &[u8], owners: &[u32]) -> Option<usize>
    requires { length owners.now ≡ length occupied.now }
    ensures { result ≡ overlap_of occupied.now owners.now }
{
    for (cell, mark) in occupied.iter().enumerate() {
        if meets(*mark, owners[cell]) {
            return Some(cell);
        }
    }
    None
}

// The cells that a net occupies become its own.
pub fn own(number: u32, occupied: &[u8], owners: &mut [u32])
    requires number_bound { number + 1 < 2 ^ 32 }
    requires owners_len { length owners.old ≡ length occupied.now }
    ensures { owners.new ≡ owned_by number occupied.now owners.old }
{
    for (cell, mark) in occupied.iter().enumerate() {
        if *mark == MARKED {
            owners[cell] = number + 1;
        }
    }
}
