//! Scripts that aren't in the grammar or break a set-up rule, and what is printed.
// A script that isn't in the grammar or breaks a set-up rule, its status, and what is printed.
#[derive(Clone, Copy)]
pub struct Broken {
    pub status: u8,
    pub script: &'static [u8],
    pub text: &'static [u8],
}

pub const BROKEN: [Broken; 17] = [
    Broken {
        status: 3,
        script: b"process\nload 0x2000\t1\nend\n",
        text: b"script: line 2: byte\n",
    },
    Broken {
        status: 3,
        script: b"\
disk 0 blank 8
file a rw 0 2 68656c6c6f
process
map 0x2000 4096 rw shared a 0
load 0x2001 1
store 0x2000 1 0x4a
laod 0x2000 1
end
",
        text: b"script: line 7: word\n",
    },
    Broken {
        status: 3,
        script: b"process\nload 0x2000\nend\n",
        text: b"script: line 2: count\n",
    },
    Broken {
        status: 3,
        script: b"process\nload x 1\nend\n",
        text: b"script: line 2: number\n",
    },
    Broken {
        status: 3,
        script: b"file zero rw 0 1 -\n",
        text: b"script: line 1: name\n",
    },
    Broken {
        status: 3,
        script: b"file a rw 0 1 123\n",
        text: b"script: line 1: bytes\n",
    },
    Broken {
        status: 3,
        script: b"process\nload 0x2000 3\nend\n",
        text: b"script: line 2: value\n",
    },
    Broken {
        status: 4,
        script: b"frames 4\nprocess\nend\n",
        text: b"setup: rule 1\n",
    },
    Broken {
        status: 4,
        script: b"swap 65537\nprocess\nend\n",
        text: b"setup: rule 2\n",
    },
    Broken {
        status: 4,
        script: b"translations 7\nprocess\nend\n",
        text: b"setup: rule 3\n",
    },
    Broken {
        status: 4,
        script: b"disk 8 blank 8\nprocess\nend\n",
        text: b"setup: rule 4\n",
    },
    Broken {
        status: 4,
        script: b"file a rw 0 1 -\nprocess\nend\n",
        text: b"setup: rule 5\n",
    },
    Broken {
        status: 4,
        script: b"disk 0 blank 8\nfile a rw 0 0 -\nprocess\nend\n",
        text: b"setup: rule 6\n",
    },
    Broken {
        status: 4,
        script: b"\
disk 0 blank 8
file a rw 0 1 -
file a rw 0 1 -
process
end
",
        text: b"setup: rule 11\n",
    },
    Broken {
        status: 4,
        script: b"disk 0 blank 2\nfile a rw 0 2 -\nprocess\nend\n",
        text: b"setup: rule 12\n",
    },
    Broken {
        status: 4,
        script: b"frames 5\nswap 16\ndisk 0 blank 2\nprocess\nend\n",
        text: b"setup: rule 1\n",
    },
    Broken {
        status: 4,
        script: b"\
disk 0 blank 4
file a rw 0 2 -
file b rw 0 1 -
file c rw 0 1 -
process
end
",
        text: b"setup: rule 12\n",
    },
];

/// Faults of the grammar and of set-up, of which some look at more than one line or at joins.
pub const MORE: [Broken; 9] = [
    Broken {
        status: 3,
        script: b"process\nend\nswap 4\n",
        text: b"script: line 3: place\n",
    },
    Broken {
        status: 3,
        script: b"process\nend\nend\n",
        text: b"script: line 3: place\n",
    },
    Broken {
        status: 4,
        script: b"disk 0 blank 8\ndisk 0 blank 8\nprocess\nend\n",
        text: b"setup: rule 4\n",
    },
    Broken {
        status: 4,
        script: b"\
disk 0 blank 8
file a rw 0 1 -
file b rw 0 7 -
process
end
",
        text: b"setup: rule 12\n",
    },
    Broken {
        status: 4,
        script: b"disk 0 blank 8\njoin 0 stripe 0\nprocess\nend\n",
        text: b"setup: rule 14\n",
    },
    Broken {
        status: 4,
        script: b"disk 0 blank 8\njoin 0 mirror 1\nprocess\nend\n",
        text: b"setup: rule 14\n",
    },
    Broken {
        status: 4,
        script: b"\
disk 0 blank 8
disk 1 blank 8
disk 2 blank 8
join 0 mirror 1
join 2 mirror 1
process
end
",
        text: b"setup: rule 14\n",
    },
    Broken {
        status: 4,
        script: b"\
disk 0 blank 8
disk 1 blank 8
join 0 stripe 1
file a rw 1 1 -
process
end
",
        text: b"setup: rule 14\n",
    },
    Broken {
        status: 4,
        script: b"\
disk 0 blank 8
disk 1 blank 4
join 0 mirror 1
process
end
",
        text: b"setup: rule 15\n",
    },
];
