//! The scripts of `examples/`, and the whole reports that they have, from an independent program.
#![tactic(auto)]

/// The script `examples/late-validation.zeus`.
pub const LATE_VALIDATION: &str = "\
zeus 1\n\
nodes 2\n\
slots 1\n\
directory 0\n\
object x 5 0 1\n\
tx 0 0 add x 3\n\
tx 1 0 get x\n\
run\n\
begin 0\n\
try 0 0\n\
deliver 0 1 0\n\
deliver 1 0 0\n\
begin 1\n\
try 1 0\n\
tick 0\n\
deliver 0 1 2\n\
try 1 0\n\
end\n\
";

/// What a run of `LATE_VALIDATION` prints.
pub const LATE_VALIDATION_REPORT: &str = "\
report 1\n\
0 begin 0 = begun\n\
1 try 0 0 = committed 0\n\
> 0 1 0 1 rinv 0.0 0 0 1 x 1 8\n\
2 deliver 0 1 0 = taken\n\
> 1 0 0 1 rack 0.0 0\n\
3 deliver 1 0 0 = taken\n\
* 0 ok 8\n\
! 0\n\
> 0 1 1 1 rval 0.0 1\n\
4 begin 1 = begun\n\
5 try 1 0 = not valid x invalid\n\
6 tick 0 = ticked\n\
> 0 1 2 1 rval 0.0 1\n\
7 deliver 0 1 2 = taken\n\
8 try 1 0 = read\n\
* 1 ok 8\n\
! 1\n\
history 0 1\n\
tx 0 acked\n\
tx 1 acked\n\
object x 0 0,1\n\
copy x 0 valid 1 8\n\
copy x 1 valid 1 8\n\
end\n\
";

/// The script `examples/one-node.zeus`.
pub const ONE_NODE: &str = "\
zeus 1\n\
nodes 1\n\
slots 1\n\
directory 0\n\
object x 5 0\n\
tx 0 0 add x 3\n\
run\n\
begin 0\n\
try 0 0\n\
end\n\
";

/// What a run of `ONE_NODE` prints.
pub const ONE_NODE_REPORT: &str = "\
report 1\n\
0 begin 0 = begun\n\
1 try 0 0 = committed 0\n\
* 0 ok 8\n\
! 0\n\
history 0\n\
tx 0 acked\n\
object x 0 0\n\
copy x 0 valid 1 8\n\
end\n\
";

/// The script `examples/ownership-moves.zeus`.
pub const OWNERSHIP_MOVES: &str = "\
zeus 1\n\
nodes 3\n\
slots 1\n\
directory 0\n\
object x 5 0 1\n\
tx 2 0 add x 1\n\
tx 0 0 get x\n\
run\n\
begin 0\n\
try 2 0\n\
deliver 2 0 0\n\
deliver 0 2 0\n\
begin 1\n\
try 0 0\n\
try 2 0\n\
end\n\
";

/// What a run of `OWNERSHIP_MOVES` prints.
pub const OWNERSHIP_MOVES_REPORT: &str = "\
report 1\n\
0 begin 0 = begun\n\
1 try 2 0 = not owner x\n\
> 2 0 0 1 oreq x\n\
2 deliver 2 0 0 = taken\n\
> 0 2 0 1 oack x 1.0 2 0.0 0 0,1 0 5\n\
3 deliver 0 2 0 = taken\n\
> 2 0 1 1 oval x 1.0 2 0,1,2\n\
> 2 1 0 1 oval x 1.0 2 0,1,2\n\
4 begin 1 = begun\n\
5 try 0 0 = read\n\
* 1 ok 5\n\
! 1\n\
6 try 2 0 = committed 0\n\
> 2 0 2 1 rinv 2.0 0 0 0,1 x 1 6\n\
> 2 1 1 1 rinv 2.0 0 0 0,1 x 1 6\n\
history 1\n\
tx 0 pending\n\
tx 1 acked\n\
object x 2 0,1,2\n\
copy x 0 valid 0 5\n\
copy x 1 valid 0 5\n\
copy x 2 write 1 6\n\
end\n\
";

/// The script `examples/reader-comes-and-goes.zeus`.
pub const READER_COMES_AND_GOES: &str = "\
zeus 1\n\
nodes 3\n\
slots 1\n\
directory 0\n\
degree 2\n\
object x 5 0 1\n\
tx 2 0 get x\n\
run\n\
begin 0\n\
try 2 0\n\
deliver 2 0 0\n\
deliver 0 2 0\n\
try 2 0\n\
deliver 2 0 1\n\
tick 2\n\
deliver 2 0 2\n\
deliver 0 2 1\n\
deliver 2 1 1\n\
deliver 2 1 0\n\
deliver 2 0 3\n\
deliver 2 0 2\n\
end\n\
";

/// What a run of `READER_COMES_AND_GOES` prints.
pub const READER_COMES_AND_GOES_REPORT: &str = "\
report 1\n\
0 begin 0 = begun\n\
1 try 2 0 = no copy x\n\
> 2 0 0 1 oreq x read\n\
2 deliver 2 0 0 = taken\n\
> 0 2 0 1 oack x 1.0 2 0.0 0 0,1 0 5 read\n\
3 deliver 0 2 0 = taken\n\
> 2 0 1 1 oval x 1.0 0 0,1,2\n\
> 2 1 0 1 oval x 1.0 0 0,1,2\n\
4 try 2 0 = read\n\
* 0 ok 5\n\
! 0\n\
5 deliver 2 0 1 = taken\n\
6 tick 2 = ticked\n\
> 2 0 2 1 oreq x leave\n\
7 deliver 2 0 2 = taken\n\
> 0 2 1 1 oack x 2.0 2 1.0 0 0,1,2 0 5 leave\n\
8 deliver 0 2 1 = taken\n\
> 2 0 3 1 oval x 2.0 0 0,1\n\
> 2 1 1 1 oval x 2.0 0 0,1\n\
9 deliver 2 1 1 = taken\n\
10 deliver 2 1 0 = again\n\
11 deliver 2 0 3 = taken\n\
12 deliver 2 0 2 = refused not reader\n\
> 0 2 2 1 onack x 2.0 not reader\n\
history 0\n\
tx 0 acked\n\
object x 0 0,1\n\
copy x 0 valid 0 5\n\
copy x 1 valid 0 5\n\
end\n\
";

/// The script `examples/repeated-packets.zeus`.
pub const REPEATED_PACKETS: &str = "\
zeus 1\n\
nodes 2\n\
slots 1\n\
directory 0\n\
object x 5 0 1\n\
tx 0 0 add x 3\n\
tx 1 0 get x\n\
run\n\
begin 0\n\
try 0 0\n\
deliver 0 1 0\n\
deliver 0 1 0\n\
deliver 0 1 0\n\
deliver 1 0 0\n\
deliver 1 0 1\n\
end\n\
";

/// What a run of `REPEATED_PACKETS` prints.
pub const REPEATED_PACKETS_REPORT: &str = "\
report 1\n\
0 begin 0 = begun\n\
1 try 0 0 = committed 0\n\
> 0 1 0 1 rinv 0.0 0 0 1 x 1 8\n\
2 deliver 0 1 0 = taken\n\
> 1 0 0 1 rack 0.0 0\n\
3 deliver 0 1 0 = again\n\
> 1 0 1 1 rack 0.0 0\n\
4 deliver 0 1 0 = again\n\
> 1 0 2 1 rack 0.0 0\n\
5 deliver 1 0 0 = taken\n\
* 0 ok 8\n\
! 0\n\
> 0 1 1 1 rval 0.0 1\n\
6 deliver 1 0 1 = again\n\
history 0\n\
tx 0 acked\n\
tx 1 new\n\
object x 0 0,1\n\
copy x 0 valid 1 8\n\
copy x 1 invalid 1 8\n\
end\n\
";

/// The script `examples/second-entry-first.zeus`.
pub const SECOND_ENTRY_FIRST: &str = "\
zeus 1\n\
nodes 2\n\
slots 1\n\
directory 0\n\
object x 5 0 1\n\
tx 0 0 add x 3\n\
tx 0 0 add x 1\n\
run\n\
begin 0\n\
try 0 0\n\
begin 1\n\
try 0 0\n\
deliver 0 1 1\n\
deliver 0 1 0\n\
deliver 0 1 1\n\
deliver 1 0 1\n\
deliver 1 0 0\n\
end\n\
";

/// What a run of `SECOND_ENTRY_FIRST` prints.
pub const SECOND_ENTRY_FIRST_REPORT: &str = "\
report 1\n\
0 begin 0 = begun\n\
1 try 0 0 = committed 0\n\
> 0 1 0 1 rinv 0.0 0 0 1 x 1 8\n\
2 begin 1 = begun\n\
3 try 0 0 = committed 1\n\
> 0 1 1 1 rinv 0.0 1 0 1 x 2 9\n\
4 deliver 0 1 1 = gap 0\n\
5 deliver 0 1 0 = taken\n\
> 1 0 0 1 rack 0.0 0\n\
6 deliver 0 1 1 = taken\n\
> 1 0 1 1 rack 0.0 1\n\
7 deliver 1 0 1 = taken\n\
8 deliver 1 0 0 = taken\n\
* 0 ok 8\n\
* 1 ok 9\n\
! 0\n\
! 1\n\
> 0 1 2 1 rval 0.0 2\n\
history 0 1\n\
tx 0 acked\n\
tx 1 acked\n\
object x 0 0,1\n\
copy x 0 valid 2 9\n\
copy x 1 invalid 2 9\n\
end\n\
";

/// The script `examples/survivor-replays.zeus`.
pub const SURVIVOR_REPLAYS: &str = "\
zeus 1\n\
nodes 3\n\
slots 1\n\
directory 0\n\
object x 5 0 1 2\n\
tx 0 0 add x 1\n\
tx 1 0 get x\n\
run\n\
begin 0\n\
try 0 0\n\
deliver 0 1 0\n\
deliver 0 2 0\n\
deliver 1 0 0\n\
deliver 2 0 0\n\
stop 0\n\
view 1 2\n\
install 1 2\n\
install 2 2\n\
deliver 0 1 1\n\
tick 1\n\
deliver 1 2 0\n\
deliver 2 1 0\n\
deliver 1 2 1\n\
begin 1\n\
try 1 0\n\
end\n\
";

/// What a run of `SURVIVOR_REPLAYS` prints.
pub const SURVIVOR_REPLAYS_REPORT: &str = "\
report 1\n\
0 begin 0 = begun\n\
1 try 0 0 = committed 0\n\
> 0 1 0 1 rinv 0.0 0 0 1,2 x 1 6\n\
> 0 2 0 1 rinv 0.0 0 0 1,2 x 1 6\n\
2 deliver 0 1 0 = taken\n\
> 1 0 0 1 rack 0.0 0\n\
3 deliver 0 2 0 = taken\n\
> 2 0 0 1 rack 0.0 0\n\
4 deliver 1 0 0 = taken\n\
5 deliver 2 0 0 = taken\n\
* 0 ok 6\n\
! 0\n\
> 0 1 1 1 rval 0.0 1\n\
> 0 2 1 1 rval 0.0 1\n\
6 stop 0 = done\n\
7 view 1 2 = installed 2\n\
8 install 1 2 = installed\n\
9 install 2 2 = installed\n\
10 deliver 0 1 1 = other epoch 1 2\n\
11 tick 1 = ticked\n\
> 1 2 0 2 rinv 0.0 0 0 1,2 x 1 6\n\
12 deliver 1 2 0 = again\n\
> 2 1 0 2 rack 0.0 0\n\
13 deliver 2 1 0 = taken\n\
> 1 2 1 2 rval 0.0 1\n\
> 1 2 2 2 recovered\n\
14 deliver 1 2 1 = taken\n\
> 2 1 1 2 recovered\n\
15 begin 1 = begun\n\
16 try 1 0 = read\n\
* 1 ok 6\n\
! 1\n\
history 0 1\n\
tx 0 acked\n\
tx 1 acked\n\
object x - 0,1,2\n\
copy x 1 valid 1 6\n\
copy x 2 valid 1 6\n\
end\n\
";

/// The script `examples/texts-as-values.zeus`.
pub const TEXTS_AS_VALUES: &str = "\
zeus 2\n\
nodes 2\n\
slots 1\n\
directory 0\n\
object x 'idle 0 1\n\
tx 0 0 get x ; same x 'idle ; put x 'busy\n\
tx 0 0 add x 1\n\
run\n\
begin 0\n\
try 0 0\n\
begin 1\n\
try 0 0\n\
deliver 0 1 0\n\
deliver 1 0 0\n\
end\n\
";

/// What a run of `TEXTS_AS_VALUES` prints.
pub const TEXTS_AS_VALUES_REPORT: &str = "\
report 2\n\
0 begin 0 = begun\n\
1 try 0 0 = committed 0\n\
> 0 1 0 1 rinv 0.0 0 0 1 x 1 'busy\n\
2 begin 1 = begun\n\
3 try 0 0 = committed 1\n\
4 deliver 0 1 0 = taken\n\
> 1 0 0 1 rack 0.0 0\n\
5 deliver 1 0 0 = taken\n\
* 0 ok 'idle\n\
* 1 failed 0\n\
! 0\n\
! 1\n\
> 0 1 1 1 rval 0.0 2\n\
history 0 1\n\
tx 0 acked\n\
tx 1 acked\n\
object x 0 0,1\n\
copy x 0 valid 1 'busy\n\
copy x 1 invalid 1 'busy\n\
end\n\
";

/// The script `examples/two-drivers.zeus`.
pub const TWO_DRIVERS: &str = "\
zeus 1\n\
nodes 4\n\
slots 1\n\
directory 0 1\n\
object x 5 3\n\
tx 0 0 add x 1\n\
tx 1 0 add x 2\n\
run\n\
begin 0\n\
try 0 0\n\
begin 1\n\
try 1 0\n\
deliver 0 0 0\n\
deliver 1 1 0\n\
deliver 0 1 0\n\
deliver 1 0 0\n\
deliver 1 3 0\n\
deliver 0 3 0\n\
deliver 1 1 1\n\
deliver 0 1 1\n\
deliver 3 1 0\n\
deliver 1 0 2\n\
tick 0\n\
deliver 0 0 2\n\
deliver 0 1 0\n\
end\n\
";

/// What a run of `TWO_DRIVERS` prints.
pub const TWO_DRIVERS_REPORT: &str = "\
report 1\n\
0 begin 0 = begun\n\
1 try 0 0 = not owner x\n\
> 0 0 0 1 oreq x\n\
2 begin 1 = begun\n\
3 try 1 0 = not owner x\n\
> 1 1 0 1 oreq x\n\
4 deliver 0 0 0 = taken\n\
> 0 1 0 1 oinv x 1.0 0 0.0 3 3\n\
> 0 3 0 1 oinv x 1.0 0 0.0 3 3\n\
> 0 0 1 1 oack x 1.0 0 0.0 3 3 -\n\
5 deliver 1 1 0 = taken\n\
> 1 0 0 1 oinv x 1.1 1 0.0 3 3\n\
> 1 3 0 1 oinv x 1.1 1 0.0 3 3\n\
> 1 1 1 1 oack x 1.1 1 0.0 3 3 -\n\
6 deliver 0 1 0 = older 1.1\n\
> 1 0 1 1 onack x 1.0 proposed 1.1\n\
7 deliver 1 0 0 = taken\n\
> 0 1 1 1 oack x 1.1 1 0.0 3 3 -\n\
8 deliver 1 3 0 = taken\n\
> 3 1 0 1 oack x 1.1 1 0.0 3 3 0 5\n\
9 deliver 0 3 0 = older 1.1\n\
> 3 0 0 1 onack x 1.0 proposed 1.1\n\
10 deliver 1 1 1 = taken\n\
11 deliver 0 1 1 = taken\n\
12 deliver 3 1 0 = taken\n\
> 1 0 2 1 oval x 1.1 1 1,3\n\
> 1 2 0 1 oval x 1.1 1 1,3\n\
> 1 3 1 1 oval x 1.1 1 1,3\n\
13 deliver 1 0 2 = taken\n\
14 tick 0 = ticked\n\
> 0 0 2 1 oreq x\n\
15 deliver 0 0 2 = taken\n\
> 0 1 2 1 oinv x 2.0 0 1.1 1 1,3\n\
> 0 0 3 1 oack x 2.0 0 1.1 1 1,3 -\n\
16 deliver 0 1 0 = settled 1.1\n\
> 1 0 3 1 oval x 1.1 1 1,3\n\
history\n\
tx 0 current\n\
tx 1 current\n\
object x 1 1,3\n\
copy x 1 valid 0 5\n\
copy x 3 valid 0 5\n\
end\n\
";

/// The script `examples/two-nodes.zeus`.
pub const TWO_NODES: &str = "\
zeus 1\n\
nodes 2\n\
slots 1\n\
directory 0\n\
object x 5 0 1\n\
tx 0 0 add x 3\n\
tx 1 0 get x\n\
run\n\
begin 0\n\
try 0 0\n\
deliver 0 1 0\n\
deliver 1 0 0\n\
deliver 0 1 1\n\
begin 1\n\
try 1 0\n\
end\n\
";

/// What a run of `TWO_NODES` prints.
pub const TWO_NODES_REPORT: &str = "\
report 1\n\
0 begin 0 = begun\n\
1 try 0 0 = committed 0\n\
> 0 1 0 1 rinv 0.0 0 0 1 x 1 8\n\
2 deliver 0 1 0 = taken\n\
> 1 0 0 1 rack 0.0 0\n\
3 deliver 1 0 0 = taken\n\
* 0 ok 8\n\
! 0\n\
> 0 1 1 1 rval 0.0 1\n\
4 deliver 0 1 1 = taken\n\
5 begin 1 = begun\n\
6 try 1 0 = read\n\
* 1 ok 8\n\
! 1\n\
history 0 1\n\
tx 0 acked\n\
tx 1 acked\n\
object x 0 0,1\n\
copy x 0 valid 1 8\n\
copy x 1 valid 1 8\n\
end\n\
";

/// A script of no transaction and no step.
pub const NO_STEP: &str = "\
zeus 1\n\
nodes 2\n\
slots 1\n\
directory 0\n\
object x 5 0 1\n\
run\n\
end\n\
";

/// What a run of `NO_STEP` prints.
pub const NO_STEP_REPORT: &str = "\
report 1\n\
history\n\
object x 0 0,1\n\
copy x 0 valid 0 5\n\
copy x 1 valid 0 5\n\
end\n\
";
