//! Worked scripts.

pub static WORKED: [&str; 24] = [
    // One node commits alone.
    "zeus 1\nnodes 1\nslots 1\ndirectory 0\nobject x 5 0\ntx 0 0 add x 3\nrun\nbegin 0\n\
     try 0 0\nend\n",
    // A write and a read at its follower.
    "zeus 1\nnodes 2\nslots 1\ndirectory 0\nobject x 5 0 1\ntx 0 0 add x 3\n\
     tx 1 0 get x\nrun\nbegin 0\ntry 0 0\ndeliver 0 1 0\ndeliver 1 0 0\ndeliver 0 1 1\n\
     begin 1\ntry 1 0\nend\n",
    // The word that it has passed is lost, and sent again.
    "zeus 1\nnodes 2\nslots 1\ndirectory 0\nobject x 5 0 1\ntx 0 0 add x 3\n\
     tx 1 0 get x\nrun\nbegin 0\ntry 0 0\ndeliver 0 1 0\ndeliver 1 0 0\nbegin 1\n\
     try 1 0\ntick 0\ndeliver 0 1 2\ntry 1 0\nend\n",
    // Letters come again.
    "zeus 1\nnodes 2\nslots 1\ndirectory 0\nobject x 5 0 1\ntx 0 0 add x 3\n\
     tx 1 0 get x\nrun\nbegin 0\ntry 0 0\ndeliver 0 1 0\ndeliver 0 1 0\ndeliver 0 1 0\n\
     deliver 1 0 0\ndeliver 1 0 1\nend\n",
    // The second entry comes first.
    "zeus 1\nnodes 2\nslots 1\ndirectory 0\nobject x 5 0 1\ntx 0 0 add x 3\n\
     tx 0 0 add x 1\nrun\nbegin 0\ntry 0 0\nbegin 1\ntry 0 0\ndeliver 0 1 1\n\
     deliver 0 1 0\ndeliver 0 1 1\ndeliver 1 0 1\ndeliver 1 0 0\nend\n",
    // An entry for another follower leaves a gap.
    "zeus 1\nnodes 3\nslots 1\ndirectory 0\nobject x 5 0 1\nobject y 7 0 2\n\
     tx 0 0 add x 1\ntx 0 0 add y 1\nrun\nbegin 0\ntry 0 0\nbegin 1\ntry 0 0\n\
     deliver 0 2 0\ndeliver 0 1 0\ndeliver 1 0 0\ntick 0\ndeliver 0 2 1\ndeliver 2 0 0\n\
     end\n",
    // The pipeline is full.
    "zeus 1\nnodes 2\nslots 1\ndirectory 0\nobject x 5 0 1\ntx 0 0 add x 1\n\
     tx 0 0 add x 1\ntx 0 0 add x 1\ntx 0 0 add x 1\ntx 0 0 add x 1\ntx 0 0 add x 1\n\
     tx 0 0 add x 1\ntx 0 0 add x 1\ntx 0 0 add x 1\ntx 0 0 add x 1\ntx 0 0 add x 1\n\
     tx 0 0 add x 1\ntx 0 0 add x 1\ntx 0 0 add x 1\ntx 0 0 add x 1\ntx 0 0 add x 1\n\
     tx 0 0 add x 1\nrun\nbegin 0\ntry 0 0\nbegin 1\ntry 0 0\nbegin 2\ntry 0 0\nbegin 3\n\
     try 0 0\nbegin 4\ntry 0 0\nbegin 5\ntry 0 0\nbegin 6\ntry 0 0\nbegin 7\ntry 0 0\n\
     begin 8\ntry 0 0\nbegin 9\ntry 0 0\nbegin 10\ntry 0 0\nbegin 11\ntry 0 0\nbegin 12\n\
     try 0 0\nbegin 13\ntry 0 0\nbegin 14\ntry 0 0\nbegin 15\ntry 0 0\nbegin 16\n\
     try 0 0\nend\n",
    // What a pending entry names is held.
    "zeus 1\nnodes 2\nslots 2\ndirectory 0\nobject x 5 0 1\nobject y 7 0 1\n\
     tx 0 0 get y ; add x 1\ntx 0 1 put y 9\nrun\nbegin 0\ntry 0 0\nbegin 1\ntry 0 1\n\
     deliver 0 1 0\ndeliver 1 0 0\ntry 0 1\nend\n",
    // A node without a copy becomes the owner.
    "zeus 1\nnodes 3\nslots 1\ndirectory 0\nobject x 5 0 1\ntx 2 0 add x 1\n\
     tx 0 0 get x\nrun\nbegin 0\ntry 2 0\ndeliver 2 0 0\ndeliver 0 2 0\nbegin 1\n\
     try 0 0\ntry 2 0\nend\n",
    // Two drivers make proposals of one version.
    "zeus 1\nnodes 4\nslots 1\ndirectory 0 1\nobject x 5 3\ntx 0 0 add x 1\n\
     tx 1 0 add x 2\nrun\nbegin 0\ntry 0 0\nbegin 1\ntry 1 0\ndeliver 0 0 0\n\
     deliver 1 1 0\ndeliver 0 1 0\ndeliver 1 0 0\ndeliver 1 3 0\ndeliver 0 3 0\n\
     deliver 1 1 1\ndeliver 0 1 1\ndeliver 3 1 0\ndeliver 1 0 2\ntick 0\ndeliver 0 0 2\n\
     deliver 0 1 0\nend\n",
    // A request comes while a commit is pending.
    "zeus 1\nnodes 2\nslots 1\ndirectory 0\nobject x 5 0 1\ntx 0 0 add x 3\n\
     tx 1 0 add x 10\nrun\nbegin 0\ntry 0 0\nbegin 1\ntry 1 0\ndeliver 1 0 0\n\
     deliver 0 1 0\ndeliver 1 0 1\ndeliver 1 0 0\ndeliver 0 1 3\ntry 1 0\ndeliver 0 1 2\n\
     end\n",
    // The owner stops, and its commit is replayed.
    "zeus 1\nnodes 3\nslots 1\ndirectory 0\nobject x 5 0 1 2\ntx 0 0 add x 1\n\
     tx 1 0 get x\nrun\nbegin 0\ntry 0 0\ndeliver 0 1 0\ndeliver 0 2 0\ndeliver 1 0 0\n\
     deliver 2 0 0\nstop 0\nview 1 2\ninstall 1 2\ninstall 2 2\ndeliver 0 1 1\ntick 1\n\
     deliver 1 2 0\ndeliver 2 1 0\ndeliver 1 2 1\nbegin 1\ntry 1 0\nend\n",
    // One of two commits of a stopped node survives.
    "zeus 1\nnodes 3\nslots 2\ndirectory 1\nobject x 5 0 1 2\nobject y 7 0 1 2\n\
     tx 0 0 add x 1\ntx 0 1 add y 1\nrun\nbegin 0\ntry 0 0\nbegin 1\ntry 0 1\n\
     deliver 0 1 1\nstop 0\nview 1 2\ninstall 1 2\ninstall 2 2\ntick 1\ndeliver 1 2 0\n\
     deliver 2 1 1\ndeliver 0 2 0\nend\n",
    // A requester decides in the old epoch.
    "zeus 1\nnodes 4\nslots 1\ndirectory 0 1\nobject x 5 0\ntx 2 0 add x 1\n\
     tx 1 0 add x 5\nrun\nbegin 0\ntry 2 0\ndeliver 2 0 0\ndeliver 0 1 0\nstop 3\n\
     view 0 1 2\ninstall 0 2\ninstall 1 2\ndeliver 0 2 0\ndeliver 1 2 0\ndeliver 2 0 1\n\
     begin 1\ntry 1 0\ndeliver 1 1 0\ninstall 2 2\ndeliver 2 1 1\ndeliver 0 1 1\n\
     deliver 1 1 0\nend\n",
    // A new owner writes and stops.
    "zeus 1\nnodes 3\nslots 1\ndirectory 0\nobject x 5 0 1\ntx 2 0 add x 1\n\
     tx 1 0 add x 10\nrun\nbegin 0\ntry 2 0\ndeliver 2 0 0\ndeliver 0 2 0\ntry 2 0\n\
     deliver 2 1 1\nstop 2\nview 0 1\ninstall 0 2\ninstall 1 2\ntick 1\ndeliver 1 0 0\n\
     deliver 0 1 1\ndeliver 1 0 1\ndeliver 1 0 2\ntick 0\ndeliver 0 0 0\nbegin 1\n\
     try 1 0\ndeliver 1 0 3\ndeliver 0 1 4\ntry 1 0\nend\n",
    // Answers of the world itself; a view may list no node.
    "zeus 1\nnodes 2\nslots 1\ndirectory 0\nobject x 5 0 1\nrun\nview 0\ndeliver 0 1 0\n\
     install 1 2\nview\ntry 0 0\nstop 1\ntick 1\nview 0\nview 0 1\ninstall 0 2\n\
     install 0 1\nend\n",
    // A transaction waits for another.
    "zeus 1\nnodes 2\nslots 1\ndirectory 0\nobject x 5 0 1\ntx 0 0 add x 3\n\
     tx 0 0 after 0 get x\ntx 0 0 get x\nrun\nbegin 0\nbegin 0\nbegin 1\nbegin 2\nend\n",
    // The source keeps what its own write waits for.
    "zeus 1\nnodes 2\nslots 1\ndirectory 0\nobject x 5 0 1\ntx 0 0 add x 3\n\
     tx 1 0 add x 10\nrun\nbegin 0\nbegin 1\ntry 1 0\ndeliver 1 0 0\nend\n",
    // A read without a copy.
    "zeus 1\nnodes 3\nslots 1\ndirectory 0\nobject x 5 0 1\ntx 2 0 get x\nrun\nbegin 0\n\
     try 2 0\nend\n",
    // The only replica stops.
    "zeus 1\nnodes 2\nslots 1\ndirectory 0\nobject x 5 0\nrun\nstop 0\nend\n",
    // A sum passes the end of the numbers, and a test fails.
    "zeus 1\nnodes 2\nslots 1\ndirectory 0\nobject x 5 0 1\n\
     tx 0 0 put x 18446744073709551615\ntx 0 0 add x 2 ; need x 2 ; put x 4\nrun\n\
     begin 0\ntry 0 0\nbegin 1\ntry 0 0\ndeliver 0 1 0\ndeliver 1 0 0\nend\n",
    // With a degree a reader brings a copy, and leaves where too many are there.
    "zeus 1\nnodes 3\nslots 1\ndirectory 0\ndegree 2\nobject x 5 0 1\ntx 2 0 get x\nrun\n\
     begin 0\ntry 2 0\ndeliver 2 0 0\ndeliver 0 2 0\ntry 2 0\ndeliver 2 0 1\ntick 2\n\
     deliver 2 0 2\ndeliver 0 2 1\ndeliver 2 1 1\ndeliver 2 1 0\ndeliver 2 0 3\n\
     deliver 2 0 2\nend\n",
    // Values are texts.
    "zeus 2\nnodes 2\nslots 1\ndirectory 0\nobject x 'idle 0 1\n\
     tx 0 0 get x ; same x 'idle ; put x 'busy\ntx 0 0 add x 1\nrun\nbegin 0\ntry 0 0\n\
     begin 1\ntry 0 0\ndeliver 0 1 0\ndeliver 1 0 0\nend\n",
    // Nothing happens.
    "zeus 1\nnodes 2\nslots 1\ndirectory 0\nobject x 5 0 1\nrun\nend\n",
];
