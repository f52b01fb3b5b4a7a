// The table in memory, with every limit of documents 01 and 02 as an associated constant; the keys; the windows that a walk keeps, with
// the functions that make an empty server and the fresh state.
#![tactic(auto)]

mod keyed;
mod parts;

ghost use Rattle.std.specs.Prelude.{◌≡◌, ◌≤◌, length, MatchOption};
ghost use Rattle.format.specs.Keys.{key_at, keys};
ghost use Rattle.table.specs.Limits.{coded, limits, in_range};
ghost use Rattle.table.specs.Keys.{place};
ghost use Rattle.table.specs.Fresh.{empty_table, empty_server, fresh_state};

pub use keyed::Keyed;

// From and to, both allowed.
#[derive(Clone, Copy)]
pub struct Range {
    pub from: u32,
    pub to: u32,
}

impl Range {
    pub fn contains(self, v: u32) -> bool
        ensures { result ≡ in_range self v }
    {
        self.from <= v && v <= self.to
    }
}

#[derive(Clone, Copy)]
pub struct Limits {
    pub table_bytes: Range,
    pub processors: Range,
    pub rounds: Range,
    pub graphs: Range,
    pub period: Range,
    pub budget: Range,
    pub offset: Range,
    pub nodes: Range,
    pub all_nodes: Range,
    pub level: Range,
    pub hyperperiod: Range,
    pub instant: Range,
    pub predecessor: Range,
    pub pending: u32,
    pub unfinished: u32,
    pub tables: Range,
    pub limit_bytes: Range,
    pub limit: Range,
}

// The nine keys in the order in which they stand, and behind them that of a limit text (document 02, R-12).
#[derive(Clone, Copy, PartialEq, Eq)]
pub enum Key {
    Processors,
    Rounds,
    Graphs,
    Period,
    Offset,
    Nodes,
    Budget,
    Level,
    After,
    Limit,
}

// What the table of the keys has of one: its name, and the limits of its number (of `after`, of each number of its list).
#[derive(Clone, Copy)]
pub struct Entry {
    pub name: &'static [u8],
    pub range: Range,
}

impl Key {
    // The key of a number, counted from 0 in the order of the keys.
    pub fn numbered(k: usize) -> Option<Key>
        ensures { MatchOption result (length keys ≤ k) (λ key. place key ≡ k) }
    {
        match k {
            0 => Some(Key::Processors),
            1 => Some(Key::Rounds),
            2 => Some(Key::Graphs),
            3 => Some(Key::Period),
            4 => Some(Key::Offset),
            5 => Some(Key::Nodes),
            6 => Some(Key::Budget),
            7 => Some(Key::Level),
            8 => Some(Key::After),
            9 => Some(Key::Limit),
            _ => None,
        }
    }

    // Lent out of the constant: to copy an entry out of it, the compiler would build the whole table first.
    fn entry(self) -> &'static Entry
        ensures name { result.now.name.now ≡ (key_at (place self)).name }
        ensures range { result.now.range ≡ coded (key_at (place self)).range }
    {
        &Table::KEYS[self as usize]
    }

    pub fn name(self) -> &'static [u8]
        ensures { result.now ≡ (key_at (place self)).name }
    {
        self.entry().name
    }

    pub fn range(self) -> Range
        ensures { result ≡ coded (key_at (place self)).range }
    {
        self.entry().range
    }
}

// A node: bit p - 1 of `after` is set for each predecessor p.
#[derive(Clone, Copy)]
pub struct Node {
    pub budget: u32,
    pub level: u32,
    pub after: u32,
}

// A graph: the place of its node 1 among the nodes of all graphs, and how many nodes it has.
#[derive(Clone, Copy)]
pub struct Graph {
    pub period: u32,
    pub offset: u32,
    pub first: usize,
    pub nodes: usize,
}

// The first `graphs` of `graph` and the first `nodes` of `node` are the table's; the rest are all zeros.
#[derive(Clone, Copy)]
pub struct Table {
    pub processors: u32,
    pub rounds: u32,
    pub graphs: usize,
    pub nodes: usize,
    pub graph: [Graph; Table::GRAPHS],
    pub node: [Node; Table::SERVERS],
}

// A pending server job: where it is linked, by how many numbers the job lies behind it. Its budget left stands in `State`.
#[derive(Clone, Copy, PartialEq)]
pub struct Pending {
    pub behind: Option<u8>,
}

// A server's window: its pending server jobs, the oldest first, shifted as the oldest complete.
#[derive(Clone, Copy)]
pub struct Server {
    pub jobs: [Pending; Table::WINDOW],
}

// What a walk keeps. For each server, by its place: the window; the budget left of each pending server job, at place × WINDOW + slot; the key
// of the oldest, NO_KEY where none is pending; how many are pending; the two counts of document 01's state; the largest response of its
// jobs so far; and the instant of its next release, so that nothing has to be counted down. All but the windows stands in arrays of numbers by
// place, since the walk looks at one of these for all places at a time.
#[derive(Clone, Copy)]
pub struct State {
    pub servers: [Server; Table::SERVERS],
    pub left: [u16; Table::SLOTS],
    pub first: [u32; Table::SERVERS],
    pub count: [u8; Table::SERVERS],
    pub unfinished: [u8; Table::SERVERS],
    pub unlinked: [u8; Table::SERVERS],
    pub worst: [u32; Table::SERVERS],
    pub next: [u32; Table::SERVERS],
}

// What is kept of the state at a boundary, to be compared with the next one's.
#[derive(Clone, Copy)]
pub struct Kept {
    pub servers: [Server; Table::SERVERS],
    pub left: [u16; Table::SLOTS],
    pub count: [u8; Table::SERVERS],
    pub unfinished: [u8; Table::SERVERS],
    pub unlinked: [u8; Table::SERVERS],
    pub next: [u32; Table::SERVERS],
}

// What a report and a row show of a state.
#[derive(Clone, Copy)]
pub struct Seen {
    pub servers: [Server; Table::SERVERS],
    pub first: [u32; Table::SERVERS],
    pub count: [u8; Table::SERVERS],
    pub worst: [u32; Table::SERVERS],
}

impl Table {
    pub const TABLE_BYTES_FROM: u32 = 0;

    pub const TABLE_BYTES_TO: u32 = 4_096;

    pub const PROCESSORS_FROM: u32 = 1;

    pub const PROCESSORS_TO: u32 = 8;

    pub const ROUNDS_FROM: u32 = 1;

    pub const ROUNDS_TO: u32 = 64;

    pub const GRAPHS_FROM: u32 = 1;

    pub const GRAPHS_TO: u32 = 8;

    pub const PERIOD_FROM: u32 = 1;

    pub const PERIOD_TO: u32 = 10_000;

    pub const BUDGET_FROM: u32 = 1;

    pub const BUDGET_TO: u32 = 10_000;

    pub const OFFSET_FROM: u32 = 0;

    pub const OFFSET_TO: u32 = 10_000;

    pub const NODES_FROM: u32 = 1;

    pub const NODES_TO: u32 = 16;

    pub const ALL_NODES_FROM: u32 = 1;

    pub const ALL_NODES_TO: u32 = 32;

    pub const LEVEL_FROM: u32 = 1;

    pub const LEVEL_TO: u32 = 4;

    pub const HYPERPERIOD_FROM: u32 = 1;

    pub const HYPERPERIOD_TO: u32 = 20_000;

    pub const INSTANT_FROM: u32 = 0;

    pub const INSTANT_TO: u32 = 4_000_000_000;

    pub const PREDECESSOR_FROM: u32 = 1;

    pub const PREDECESSOR_TO: u32 = Table::NODES_TO - 1;

    pub const PENDING: u32 = 16;

    pub const UNFINISHED: u32 = 64;

    pub const TABLES_FROM: u32 = 1;

    pub const TABLES_TO: u32 = 16;

    pub const LIMIT_BYTES_FROM: u32 = 0;

    pub const LIMIT_BYTES_TO: u32 = 4_096;

    pub const LIMIT_FROM: u32 = 0;

    pub const LIMIT_TO: u32 = 2_000_000;

    // The limits as lengths of arrays.
    pub const GRAPHS: usize = Table::GRAPHS_TO as usize;

    pub const SERVERS: usize = Table::ALL_NODES_TO as usize;

    pub const WINDOW: usize = Table::PENDING as usize;

    pub const SLOTS: usize = Table::SERVERS * Table::WINDOW;

    pub const RUNNING: usize = Table::PROCESSORS_TO as usize;

    pub const TABLES: usize = Table::TABLES_TO as usize;

    // No server job has this key.
    pub const NO_KEY: u32 = u32::MAX;

    // By the order of the keys.
    const KEYS: [Entry; 10] = [
        Entry {
            name: b"processors",
            range: Range {
                from: Table::PROCESSORS_FROM,
                to: Table::PROCESSORS_TO,
            },
        },
        Entry {
            name: b"rounds",
            range: Range {
                from: Table::ROUNDS_FROM,
                to: Table::ROUNDS_TO,
            },
        },
        Entry {
            name: b"graphs",
            range: Range {
                from: Table::GRAPHS_FROM,
                to: Table::GRAPHS_TO,
            },
        },
        Entry {
            name: b"period",
            range: Range {
                from: Table::PERIOD_FROM,
                to: Table::PERIOD_TO,
            },
        },
        Entry {
            name: b"offset",
            range: Range {
                from: Table::OFFSET_FROM,
                to: Table::OFFSET_TO,
            },
        },
        Entry {
            name: b"nodes",
            range: Range {
                from: Table::NODES_FROM,
                to: Table::NODES_TO,
            },
        },
        Entry {
            name: b"budget",
            range: Range {
                from: Table::BUDGET_FROM,
                to: Table::BUDGET_TO,
            },
        },
        Entry {
            name: b"level",
            range: Range {
                from: Table::LEVEL_FROM,
                to: Table::LEVEL_TO,
            },
        },
        Entry {
            name: b"after",
            range: Range {
                from: Table::PREDECESSOR_FROM,
                to: Table::PREDECESSOR_TO,
            },
        },
        Entry {
            name: b"limit",
            range: Range {
                from: Table::LIMIT_FROM,
                to: Table::LIMIT_TO,
            },
        },
    ];

    // Every limit, for the proof that the constants are the rules' own.
    pub fn limits() -> Limits
        ensures { result ≡ limits }
    {
        Limits {
            table_bytes: Range {
                from: Table::TABLE_BYTES_FROM,
                to: Table::TABLE_BYTES_TO,
            },
            processors: Range {
                from: Table::PROCESSORS_FROM,
                to: Table::PROCESSORS_TO,
            },
            rounds: Range {
                from: Table::ROUNDS_FROM,
                to: Table::ROUNDS_TO,
            },
            graphs: Range {
                from: Table::GRAPHS_FROM,
                to: Table::GRAPHS_TO,
            },
            period: Range {
                from: Table::PERIOD_FROM,
                to: Table::PERIOD_TO,
            },
            budget: Range {
                from: Table::BUDGET_FROM,
                to: Table::BUDGET_TO,
            },
            offset: Range {
                from: Table::OFFSET_FROM,
                to: Table::OFFSET_TO,
            },
            nodes: Range {
                from: Table::NODES_FROM,
                to: Table::NODES_TO,
            },
            all_nodes: Range {
                from: Table::ALL_NODES_FROM,
                to: Table::ALL_NODES_TO,
            },
            level: Range {
                from: Table::LEVEL_FROM,
                to: Table::LEVEL_TO,
            },
            hyperperiod: Range {
                from: Table::HYPERPERIOD_FROM,
                to: Table::HYPERPERIOD_TO,
            },
            instant: Range {
                from: Table::INSTANT_FROM,
                to: Table::INSTANT_TO,
            },
            predecessor: Range {
                from: Table::PREDECESSOR_FROM,
                to: Table::PREDECESSOR_TO,
            },
            pending: Table::PENDING,
            unfinished: Table::UNFINISHED,
            tables: Range {
                from: Table::TABLES_FROM,
                to: Table::TABLES_TO,
            },
            limit_bytes: Range {
                from: Table::LIMIT_BYTES_FROM,
                to: Table::LIMIT_BYTES_TO,
            },
            limit: Range {
                from: Table::LIMIT_FROM,
                to: Table::LIMIT_TO,
            },
        }
    }

    // What stands in the table of the keys at number k, counted from 0; past the last one, a key without a name.
    pub fn key(k: usize) -> Entry
        ensures name { result.name.now ≡ (key_at k).name }
        ensures range { result.range ≡ coded (key_at k).range }
    {
        match Key::numbered(k) {
            Some(key) => *key.entry(),
            None => Entry {
                name: b"",
                range: Range { from: 0, to: 0 },
            },
        }
    }

    // A table with no graph.
    pub fn empty(processors: u32, rounds: u32) -> Table
        ensures { result ≡ empty_table processors rounds }
    {
        let g = Graph {
            period: 0,
            offset: 0,
            first: 0,
            nodes: 0,
        };
        let x = Node {
            budget: 0,
            level: 0,
            after: 0,
        };
        Table {
            processors,
            rounds,
            graphs: 0,
            nodes: 0,
            graph: [g; Table::GRAPHS],
            node: [x; Table::SERVERS],
        }
    }

    // A server of which nothing is released.
    pub fn empty_server() -> Server
        ensures { result ≡ empty_server }
    {
        Server {
            jobs: [Pending { behind: None }; Table::WINDOW],
        }
    }

    // The state at instant 0: each server's first release is at its offset.
    pub fn fresh(offsets: [u32; Table::SERVERS]) -> State
        ensures { result ≡ fresh_state offsets }
    {
        let s = Table::empty_server();
        State {
            servers: [s; Table::SERVERS],
            left: [0u16; Table::SLOTS],
            first: [Table::NO_KEY; Table::SERVERS],
            count: [0u8; Table::SERVERS],
            unfinished: [0u8; Table::SERVERS],
            unlinked: [0u8; Table::SERVERS],
            worst: [0u32; Table::SERVERS],
            next: offsets,
        }
    }
}
