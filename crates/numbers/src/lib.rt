// The numbers that come back, each under its name. docs/RULES.md tells their details and the order in which they
// are judged.
#![tactic(auto)]

ghost use Rattle.std.specs.Prelude.{◌≡◌};
ghost use Rattle.numbers.specs.Refusals.{all_numbers, number_of};

// A route, a tree; of what is judged so far: no number is due.
pub const DONE_NUMBER: u32 = 0;

// Wrong length or version, a count past the end, bytes left over, over 16 sinks.
pub const SHEET_NUMBER: u32 = 1;

// A side or V.
pub const SIDES_NUMBER: u32 = 2;

// A cost or the node limit.
pub const CONFIG_NUMBER: u32 = 3;

// A position outside the room; a search's end of V or more.
pub const POSITION_NUMBER: u32 = 4;

// An unknown code; Air in a block record.
pub const CODE_NUMBER: u32 = 5;

// A search's kinds not V; a buffer under V; no place in the queue.
pub const BUFFER_NUMBER: u32 = 6;

// Two blocks in one cell.
pub const OVERLAP_NUMBER: u32 = 7;

// BlockPower without a horizontal facing.
pub const PORT_FACING_NUMBER: u32 = 8;

// A terminal or approach outside the room.
pub const END_OUTSIDE_NUMBER: u32 = 9;

// Start, else goal, not routeable.
pub const NOT_ROUTEABLE_NUMBER: u32 = 10;

// No route.
pub const NO_ROUTE_NUMBER: u32 = 11;

// Node limit passed.
pub const LIMIT_PASSED_NUMBER: u32 = 12;

// Queue full.
pub const QUEUE_FULL_NUMBER: u32 = 13;

// A sink has no route to any goal.
pub const NO_GOAL_NUMBER: u32 = 14;

// Branches, turn by turn, exceed their buffer.
pub const BRANCHES_FULL_NUMBER: u32 = 15;

// Two nets of a list occupy one cell.
pub const NETS_OVERLAP_NUMBER: u32 = 16;

// A function file's text output is too short.
pub const TEXT_SHORT_NUMBER: u32 = 18;

// A line of a function file that no export has there.
pub const BAD_LINE_NUMBER: u32 = 19;

// All of them, in their order; 17, a repeater without direction, can't occur. The code's numbers are the definitions'.
pub fn all_numbers() -> [u32; 19]
    ensures { result ≡ all_numbers }
{
    [
        DONE_NUMBER,
        SHEET_NUMBER,
        SIDES_NUMBER,
        CONFIG_NUMBER,
        POSITION_NUMBER,
        CODE_NUMBER,
        BUFFER_NUMBER,
        OVERLAP_NUMBER,
        PORT_FACING_NUMBER,
        END_OUTSIDE_NUMBER,
        NOT_ROUTEABLE_NUMBER,
        NO_ROUTE_NUMBER,
        LIMIT_PASSED_NUMBER,
        QUEUE_FULL_NUMBER,
        NO_GOAL_NUMBER,
        BRANCHES_FULL_NUMBER,
        NETS_OVERLAP_NUMBER,
        TEXT_SHORT_NUMBER,
        BAD_LINE_NUMBER,
    ]
}

// Why a call gives no answer: what each number but 0 stands for.
#[derive(Clone, Copy, Debug, PartialEq, Eq)]
pub enum Refusal {
    Sheet,
    Sides,
    Config,
    Position,
    Code,
    Buffer,
    Overlap,
    PortFacing,
    EndOutside,
    NotRouteable,
    NoRoute,
    LimitPassed,
    QueueFull,
    NoGoal,
    BranchesFull,
    NetsOverlap,
    TextShort,
    BadLine,
}

impl Refusal {
    // The number that comes back for it.
    pub fn number(self) -> u32
        ensures { result ≡ number_of self }
    {
        match self {
            Refusal::Sheet => SHEET_NUMBER,
            Refusal::Sides => SIDES_NUMBER,
            Refusal::Config => CONFIG_NUMBER,
            Refusal::Position => POSITION_NUMBER,
            Refusal::Code => CODE_NUMBER,
            Refusal::Buffer => BUFFER_NUMBER,
            Refusal::Overlap => OVERLAP_NUMBER,
            Refusal::PortFacing => PORT_FACING_NUMBER,
            Refusal::EndOutside => END_OUTSIDE_NUMBER,
            Refusal::NotRouteable => NOT_ROUTEABLE_NUMBER,
            Refusal::NoRoute => NO_ROUTE_NUMBER,
            Refusal::LimitPassed => LIMIT_PASSED_NUMBER,
            Refusal::QueueFull => QUEUE_FULL_NUMBER,
            Refusal::NoGoal => NO_GOAL_NUMBER,
            Refusal::BranchesFull => BRANCHES_FULL_NUMBER,
            Refusal::NetsOverlap => NETS_OVERLAP_NUMBER,
            Refusal::TextShort => TEXT_SHORT_NUMBER,
            Refusal::BadLine => BAD_LINE_NUMBER,
        }
    }
}

impl From<Refusal> for u32 {
    ghost from_gives = { λ refusal r. r ≡ number_of refusal };

    fn from(refusal: Refusal) -> u32 {
        refusal.number()
    }
}
