// Lent memory: whether a number touches it; cleared to its very end, at each width in use.
#![tactic(auto)]

ghost use Rattle.std.specs.Prelude.{◌≡◌, ◌≤◌, [], ◌∷◌, length, replicate};
ghost use Rattle.lent.specs.Lent.{touches, filled};

// "Numbers 1 to 6 touch nothing": a buffer's is the last of these; a success touches.
pub fn touches(number: u32) -> bool
    ensures { result ≡ touches number }
{
    number == numbers::DONE_NUMBER || numbers::BUFFER_NUMBER < number
}

// What lent memory is made of: bytes, and words of 32 and 64 bits, each with its 0.
pub trait Zero: Copy {
    ghost ZERO: { Self };

    const ZERO: Self;

    ghost copies: { (x : Self) → Self.is_infallible x };

    ghost same: { (x copy : Self) → Self.is_clone x copy → copy ≡ x };
}

impl Zero for u8 {
    ghost ZERO = { 0 };

    const ZERO: u8 = 0;

    ghost copies = { λ _. tt };

    ghost same = { λ _ _ is. is };
}

impl Zero for u32 {
    ghost ZERO = { 0 };

    const ZERO: u32 = 0;

    ghost copies = { λ _. tt };

    ghost same = { λ _ _ is. is };
}

impl Zero for u64 {
    ghost ZERO = { 0 };

    const ZERO: u64 = 0;

    ghost copies = { λ _. tt };

    ghost same = { λ _ _ is. is };
}

// At each width this is `Cleared s.old s.new`.
pub fn clear<T: Zero>(s: &mut [T])
    ensures { s.new ≡ replicate (length s.old) T.ZERO }
{
    s.fill(T::ZERO);
}

// Two values, and zeros behind them.
pub fn write_two(values: &mut [u64], first: u64, second: u64)
    requires { 2 ≤ length values.old }
    ensures { values.new ≡ filled (first ∷ second ∷ []) values.old }
{
    clear(values);
    values[0] = first;
    values[1] = second;
}
