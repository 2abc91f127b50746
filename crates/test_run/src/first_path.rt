//! The first path: a script, its report, and its report behind a trace.
pub const FIRST: &[u8] = b"\
disk 0 blank 8
file a rw 0 2 68656c6c6f
process
map 0x2000 4096 rw shared a 0
load 0x2001 1
store 0x2000 1 0x4a
end
";

pub const REPORT: &[u8] = b"\
process 1
4 map 0x00002000
5 load 0x65
6 store ok
7 exit ok
file a 5
00000000 4a656c6c6f
";

pub const TRACE: &[u8] = b"\
trace swap 64
disk 0 8
root 1
file 0 a rw 0 5 1+2
00000000 68656c6c6f
entries 4
1 0000000000000000 map 0x00002000 4096 rw shared file 0 0 = 0x00002000
1 0000000000000000 load 0x00002001 1 = 0x65
1 0000000000000000 store 0x00002000 1 0x4a = ok
1 0000000000000000 exit = ok
process 1
4 map 0x00002000
5 load 0x65
6 store ok
7 exit ok
file a 5
00000000 4a656c6c6f
";
