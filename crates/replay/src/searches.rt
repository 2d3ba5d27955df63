// The stored searches: a file of big-endian records, each a search with its answer, as the oracle's README lays them out.
use room::{Cost, Nodes, Room, RouterConfig};
use stored::file_places::{byte_at, past, word_at};

// The letters that the file begins with: DRS1.
pub const LETTERS: usize = 0x44525331;

// The answer that is stored. The path's cells, as many as its length, stay in the file, behind their count at this place.
#[derive(Clone, Copy)]
pub struct Told {
    pub number: u32,
    pub detail: usize,
    pub cost: u32,
    pub expanded: u32,
    pub length: usize,
    pub path_at: usize,
}

// A stored search: what is handed over, the answer, and the place behind it. The kinds, of this count, stay in the file, from this place on.
#[derive(Clone, Copy)]
pub struct Stored {
    pub room: Room,
    pub config: RouterConfig,
    pub start: usize,
    pub goal: usize,
    pub places: u32,
    pub lent: usize,
    pub from: usize,
    pub count: usize,
    pub told: Told,
    pub next: usize,
}

fn room_at(file: &[u8], at: usize) -> Room {
    Room {
        wide: byte_at(file, at, 0),
        high: byte_at(file, at, 1),
        deep: byte_at(file, at, 2),
    }
}

fn config_at(file: &[u8], at: usize) -> RouterConfig {
    RouterConfig {
        limit: Nodes(word_at(file, at, 3) as u32),
        horizontal: Cost(word_at(file, at, 7) as u32),
        stair: Cost(word_at(file, at, 11) as u32),
        support: Cost(word_at(file, at, 15) as u32),
    }
}

fn told_at(file: &[u8], at: usize) -> Told {
    Told {
        number: byte_at(file, at, 0) as u32,
        detail: word_at(file, at, 1),
        cost: word_at(file, at, 5) as u32,
        expanded: word_at(file, at, 9) as u32,
        length: word_at(file, at, 13),
        path_at: past(at, 13),
    }
}

// The search that is stored at a place.
pub(crate) fn stored_at(file: &[u8], at: usize) -> Stored {
    let from = past(at, 39);
    let count = word_at(file, at, 35);
    let answer_at = past(from, count);
    let cells_at = past(answer_at, 17);
    Stored {
        room: room_at(file, at),
        config: config_at(file, at),
        start: word_at(file, at, 19),
        goal: word_at(file, at, 23),
        places: word_at(file, at, 27) as u32,
        lent: word_at(file, at, 31),
        from,
        count,
        told: told_at(file, answer_at),
        next: past(cells_at, word_at(file, answer_at, 13) * 2),
    }
}
