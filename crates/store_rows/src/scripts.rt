// Scripts of calls, three letters each, and what they show: by the rule that the least recently used key is lost.
// `+av` puts the entry v at the key a, `?a.` looks for a, `-a.` evicts a. What is shown is the entry of each look, or a
// dot, then the misses and the number of entries.

/// A store of so many entries, a script, and what it shows.
pub struct Row {
    pub capacity: u64,
    pub script: &'static [u8],
    pub shown: &'static str,
}

pub const ROWS: [Row; 20] = [
    // Nothing was put.
    Row {
        capacity: 1,
        script: b"?a.?a.",
        shown: ".. 2 0",
    },
    Row {
        capacity: 1,
        script: b"-a.?a.",
        shown: ". 1 0",
    },
    // One entry at a time.
    Row {
        capacity: 1,
        script: b"+ax?a.",
        shown: "x 0 1",
    },
    Row {
        capacity: 1,
        script: b"+ax+by?a.?b.",
        shown: ".y 1 1",
    },
    Row {
        capacity: 1,
        script: b"+ax+ay?a.",
        shown: "y 0 1",
    },
    Row {
        capacity: 1,
        script: b"+ax-a.?a.",
        shown: ". 1 0",
    },
    // A hit is the most recent.
    Row {
        capacity: 2,
        script: b"+ax+by?a.+cz?b.?a.?c.",
        shown: "x.xz 1 2",
    },
    // A look that misses moves nothing.
    Row {
        capacity: 2,
        script: b"+ax+by?c.+cz?a.?b.?c.",
        shown: "..yz 2 2",
    },
    // The least recently put is lost, and not the newest.
    Row {
        capacity: 2,
        script: b"+ax+by+cz?a.?b.?c.",
        shown: ".yz 1 2",
    },
    // A put over an equal key is the most recent, in place of the old entry.
    Row {
        capacity: 2,
        script: b"+ax+by+az+cw?a.?b.?c.",
        shown: "z.w 1 2",
    },
    // An entry that was evicted leaves room.
    Row {
        capacity: 2,
        script: b"+ax+by-a.+cz?b.?c.",
        shown: "yz 0 2",
    },
    Row {
        capacity: 2,
        script: b"+ax+by-b.-c.?a.?b.",
        shown: "x. 1 1",
    },
    Row {
        capacity: 3,
        script: b"+ax+by+cz?a.?b.+dw?c.?a.?b.?d.",
        shown: "xy.xyw 1 3",
    },
    // A put over an equal key drops no other.
    Row {
        capacity: 3,
        script: b"+ax+by+cz+aw?a.?b.?c.",
        shown: "wyz 0 3",
    },
    // Each key that isn't there is counted, also one that was there.
    Row {
        capacity: 3,
        script: b"?a.+ax?b.+by?c.+cz?d.+dw?a.?b.",
        shown: ".....y 5 3",
    },
    // Evicted from the middle, the order of the others stays.
    Row {
        capacity: 3,
        script: b"+ax+by+cz-b.+dw+ex?a.?c.?d.?e.",
        shown: ".zwx 1 3",
    },
    // A store that is never full.
    Row {
        capacity: 1_000_000,
        script: b"?a.",
        shown: ". 1 0",
    },
    Row {
        capacity: 1_000_000,
        script: b"+ax+by+cz+dw?a.?b.?c.?d.?e.",
        shown: "xyzw. 1 4",
    },
    Row {
        capacity: 1_000_000,
        script: b"+ax+by+az-b.?a.?b.",
        shown: "z. 1 1",
    },
    Row {
        capacity: 1_000_000,
        script: b"+ax-a.-a.?a.+ay?a.",
        shown: ".y 1 1",
    },
];
