//! Worked rows of each command: what a run is given, and what it leaves. In some of them a call in
//! the middle fails. Each table is borrowed, since copying one makes a long proof. All tags are by
//! openssl:
//!
//!     printf 010001030000000ac5cd0000000000000001 | xxd -r -p
//!       | openssl dgst -sha1 -mac HMAC -macopt hexkey:000102030405060708090a0b0c0d0e0f | cut -c1-24
//!
//! and alike with other numbers and frames, for DNP3 with 02 in front, for direction `ba` with 01
//! behind that, and for y24 with -sha256 and cut -c1-32.

/// The key text of all runs, for a key of 16 bytes.
pub const KEY: &[u8] = b"000102030405060708090a0b0c0d0e0f";

/// A slot of a journal of `rtu ab` that holds number 0.
pub const NEW: [u8; 24] = [
    0, 0, 0, 0, 0, 0, 0, 0, 1, 0, 18, 2, 255, 255, 255, 255, 255, 255, 255, 255, 254, 255, 237, 253,
];

/// A slot of a journal of `rtu ba` that holds number 0.
pub const BACK: [u8; 24] = [
    0, 0, 0, 0, 0, 0, 0, 0, 1, 1, 18, 2, 255, 255, 255, 255, 255, 255, 255, 255, 254, 254, 237, 253,
];

/// A slot that was never written.
pub const BLANK: [u8; 24] = [0; 24];

/// A run, and what it leaves.
#[derive(Clone, Copy)]
pub struct Row {
    /// The words, which single spaces separate.
    pub words: &'static str,
    /// The input. A read gives up to 100 bytes of it.
    pub text: &'static [u8],
    /// Slot A of the journal. Slot B is blank.
    pub slot: &'static [u8; 24],
    /// Slot A of the second journal. Slot B is blank.
    pub second: &'static [u8; 24],
    /// The calls of the input and of the output that fail, counted from 1, or 0 if none does. A
    /// write takes up to 100 bytes.
    pub fails: (u32, u32),
    /// The exit status.
    pub exit_status: u8,
    /// What the output gets.
    pub out: &'static [u8],
    /// What the log gets.
    pub log: &'static [u8],
}

const READ_FAULT: &[u8] = b"fault: read\n";

const REQUEST: &[u8] = b"+01030000000ac5cd\n-4\n";

const READ: Row = Row {
    words: "read rtu",
    text: REQUEST,
    slot: &NEW,
    second: &BACK,
    fails: (0, 0),
    exit_status: 0,
    out: b"read at 0 01030000000ac5cd\n",
    log: b"",
};

/// The version is the one in the first heading of CHANGELOG.md.
pub const SINGLE: &[Row] = &[
    READ,
    // A DNP3 device hunts for frames, so it passes over bytes up to the start of one.
    Row {
        words: "read dnp3",
        text: b"+ff05056405c001000004e921\n",
        out: b"read at 2 056405c001000004e921\n",
        ..READ
    },
    Row {
        text: b"+01030000000ac5cd\n-4\nx",
        exit_status: 4,
        log: b"fault: line 3 char\n",
        ..READ
    },
    // The flush of the output fails.
    Row {
        words: "vectors",
        fails: (0, 2),
        exit_status: 6,
        out: b"crc 4 ok\nhmac 7 ok\nframes 7 ok\nuser 2 ok\n",
        ..READ
    },
    Row {
        words: "version",
        out: b"link_replay 0.7.0\n",
        ..READ
    },
    // Words that fit no command. Those of the command that was meant follow, or all commands.
    Row {
        words: "",
        exit_status: 2,
        out: b"",
        log: b"fault: usage\n\
          commands: read init seal check live space replay audit duplex two_wire \
          trial poll vectors help version\n",
        ..READ
    },
    Row {
        words: "live seal",
        exit_status: 2,
        out: b"",
        log: b"fault: usage\nusage: link_replay live seal P DIR KEY JOURNAL\n\
          usage: link_replay live check P DIR KEY JOURNAL\n\
          usage: link_replay live line P DIR KEY SENT GOT\n",
        ..READ
    },
];

/// Two resets of a DNP3 link with no silence between them, and two queries of Modbus RTU that four
/// silent ticks part. 21000 silent ticks follow the input. scripts/trial_model.py has computed the
/// counts of the trials.
pub const SPACED: &[Row] = &[
    Row {
        words: "space dnp3",
        text: b"+056405c001000004e921056405c001000004e921\n",
        out: b"-10\n+056405c001000004e921\n-21\n+056405c001000004e921\n-20969\n",
        ..READ
    },
    Row {
        words: "space rtu24",
        text: b"+01030000000ac5cd\n-4\n+010300000001840a\n",
        out: b"-12\n+01030000000ac5cd\n-27\n+010300000001840a\n-20965\n",
        ..READ
    },
    // What was taken before a refusal is spaced.
    Row {
        words: "space dnp3",
        text: b"+056405c001000004e921\nx",
        exit_status: 4,
        out: b"-10\n",
        log: b"fault: line 2 char\n",
        ..READ
    },
    Row {
        words: "trial rtu 7 100",
        out: b"trial rtu 7 100 sealed 100 passed 64 refused 38 dropped 0 read 64\n",
        ..READ
    },
    Row {
        words: "trial dnp24 0 1000",
        out: b"trial dnp24 0 1000 sealed 1000 passed 598 refused 366 dropped 17 read 598\n",
        ..READ
    },
];

/// The request and its packet.
const PACKET: &[u8] = b"+01030000000ac5cd\n-3\n+0001014c5b8d33c6d29a347013b0\n-11\n";

const SEAL: Row = Row {
    words: "seal rtu ab key journal",
    out: PACKET,
    log: b"sealed 1 at 0 len 8\n",
    ..READ
};

/// Runs with a journal. A live line is read until it ends. What a read has given leaves before the
/// next one.
pub const KEPT: &[Row] = &[
    Row {
        words: "init rtu ab journal",
        slot: &BLANK,
        out: b"",
        ..READ
    },
    Row {
        words: "init rtu ab journal",
        exit_status: 11,
        out: b"",
        log: b"fault: journal stands at 0\n",
        ..READ
    },
    SEAL,
    // The journal is one of the other direction.
    Row {
        words: "seal rtu ba key journal",
        exit_status: 12,
        out: b"",
        log: b"fault: wrong link 000000000000000001001202fffffffffffffffffeffedfd\n",
        ..SEAL
    },
    Row {
        words: "check rtu ab key journal",
        text: PACKET,
        out: b"-18\n+01030000000ac5cd\n-330\n",
        log: b"passed 1 at 0 len 8\n",
        ..SEAL
    },
    Row {
        words: "live seal rtu ab key journal",
        out: b"+01030000000ac5cd\n-3\n+00\n+01014c5b8d33c6d29a347013b0\n-11\n",
        ..SEAL
    },
    Row {
        words: "live check rtu ab key journal",
        text: b"+01030000000ac5cd\n-3\n+0001014c5b8d33c6d29a347013b0\n",
        fails: (2, 0),
        exit_status: 5,
        out: b"-18\n+01030000000ac5\n",
        log: b"passed 1 at 0 len 8\nfault: read\n",
        ..SEAL
    },
];

/// A request that goes out, and the packet of a reply that comes in. The spacer sends the reply in
/// the tick after the fourth silent one behind it.
const BOTH: Row = Row {
    words: "live line rtu ab key sent got",
    text: b">+01030000000ac5cd\n>-4\n\
      <+0103020007f986\n<-3\n<+0001cd6dbabb477e2c4fe8f0680e\n<-11\n",
    out: b">+01030000000ac5cd\n>-3\n>+00\n<-29\n<+0103020007f9\n\
      >+01014c5b8d33c6d29a347013b0\n>-11\n<+86\n<-21319\n",
    log: b">sealed 1 at 0 len 8\n<passed 1 at 0 len 7\n",
    ..READ
};

/// Both ways of a live line. The tag of the reply is that of direction `ba`.
pub const WAYS: &[Row] = &[
    BOTH,
    // A line is counted among those of both ways.
    Row {
        text: b">-4\n<-2\n>+0\n",
        exit_status: 4,
        out: b">-4\n<-2\n",
        log: b"fault: line 3 odd\n",
        ..BOTH
    },
    // The second journal is one of the first one's direction.
    Row {
        second: &NEW,
        exit_status: 12,
        out: b"",
        log: b"fault: wrong link GOT 000000000000000001001202fffffffffffffffffeffedfd\n",
        ..BOTH
    },
    // The first write of the output fails.
    Row {
        fails: (0, 1),
        exit_status: 6,
        out: b"",
        log: b">sealed 1 at 0 len 8\n",
        ..BOTH
    },
];

/// Six polls of a master with three different requests, and the link that carries them. On the link
/// the second packet is altered, the third one comes twice, and the sixth one comes before the
/// fifth.
const POLLS: Row = Row {
    words: "replay rtu ab key",
    text: b"+01030000000ac5cd\n-92\n\
      +010300000001840a\n-92\n\
      +1103006b00037687\n-92\n\
      +01030000000ac5cd\n-92\n\
      +010300000001840a\n-92\n\
      +1103006b00037687\n-92\n\
      %\n\
      +01030000000ac5cd\n-3\n+0001014c5b8d33c6d29a347013b0\n-75\n\
      +010300000001840b\n-3\n+0002ee5b1d1d6fc159af2411aeb5\n-75\n\
      +1103006b00037687\n-3\n+00037f89dbbfa5b4b19474035c96\n-75\n\
      +1103006b00037687\n-3\n+00037f89dbbfa5b4b19474035c96\n-75\n\
      +01030000000ac5cd\n-3\n+0004e978a8dacbc39328af15b86d\n-75\n\
      +1103006b00037687\n-3\n+0006a95674d7227aa3c4c9a7e69d\n-75\n\
      +010300000001840a\n-3\n+0005ffc67a568388534ed1ce11e1\n-75\n",
    out: b"sealed 1 at 0 01030000000ac5cd\n\
      sealed 2 at 100 010300000001840a\n\
      sealed 3 at 200 1103006b00037687\n\
      sealed 4 at 300 01030000000ac5cd\n\
      sealed 5 at 400 010300000001840a\n\
      sealed 6 at 500 1103006b00037687\n\
      passed 1 at 0 01030000000ac5cd\n\
      passed 3 at 200 1103006b00037687\n\
      passed 4 at 400 01030000000ac5cd\n\
      passed 6 at 500 1103006b00037687\n\
      read at 18 01030000000ac5cd\n\
      read at 218 1103006b00037687\n\
      read at 418 01030000000ac5cd\n\
      read at 518 1103006b00037687\n",
    ..READ
};

/// Runs of `replay`.
pub const REPLAYED: &[Row] = &[
    POLLS,
    // The fourth read fails, and in the next row the third write.
    Row {
        fails: (4, 0),
        exit_status: 5,
        out: b"",
        log: READ_FAULT,
        ..POLLS
    },
    Row {
        fails: (0, 3),
        exit_status: 6,
        out: b"sealed 1 at 0 01030000000ac5cd\n\
          sealed 2 at 100 010300000001840a\n\
          sealed 3 at 200 1103006b00037687\n\
          sealed 4 at 300 01030000000ac5cd\n\
          sealed 5 at 400 010300000001840a\n\
          sealed 6 at 500 1103006b00037687\n\
          pass",
        ..POLLS
    },
    // Another frame with the number of a sealed one, and then a sealed frame with another number.
    Row {
        text: b"+01030000000ac5cd\n%\n+010300000001840a\n-3\n\
          +0001ec3beb0f43a9c825b948c840\n-75\n\
          +01030000000ac5cd\n-3\n+0002e8d6d9348b893d30b358c222\n",
        out: b"sealed 1 at 0 01030000000ac5cd\n\
          passed 1 at 0 010300000001840a\n\
          passed 2 at 100 01030000000ac5cd\n\
          read at 18 010300000001840a\n\
          read at 118 01030000000ac5cd\n\
          forged 1 at 0 010300000001840a\n\
          forged 2 at 100 01030000000ac5cd\n",
        ..POLLS
    },
    Row {
        words: "replay dnp24 ab key",
        text: b"+056405c001000004e921\n-40\n%\n+056405c001000004e921\n-3\n\
          +00000001cd525d6a6c119047d45db5ba9f9e4290\n-47\n",
        out: b"sealed 1 at 0 056405c001000004e921\n\
          passed 1 at 0 056405c001000004e921\n\
          read at 24 056405c001000004e921\n",
        ..POLLS
    },
    // There is no mark, and in the next row there are two. What was listed isn't printed.
    Row {
        text: b"+01\n",
        exit_status: 4,
        out: b"",
        log: b"fault: line 2 mark\n",
        ..POLLS
    },
    Row {
        text: b"+01030000000ac5cd\n-4\n%\n-4\n%\n",
        exit_status: 4,
        out: b"",
        log: b"fault: line 5 char\n",
        ..POLLS
    },
];

/// A request, its link as the transmitter seals it, and what the receiver makes of the link.
const CLEAN: Row = Row {
    words: "audit rtu ab key 0 0",
    text: b"+01030000000ac5cd\n-40\n%\n\
      +01030000000ac5cd\n-3\n+0001014c5b8d33c6d29a347013b0\n-47\n%\n\
      -18\n+01030000000ac5cd\n-366\n",
    out: b"audit clean sealed 1 passed 1 read 1\n",
    ..READ
};

/// The session of the first row, its third line five ticks later.
const LATER: Row = Row {
    words: "audit rtu ab key 0 0 2..5",
    text: b"+01030000000ac5cd\n-40\n%\n\
      +01030000000ac5cd\n-3\n+0001014c5b8d33c6d29a347013b0\n-47\n%\n\
      -23\n+01030000000ac5cd\n-366\n",
    ..CLEAN
};

/// Runs of `audit`: each verdict.
pub const AUDITED: &[Row] = &[
    CLEAN,
    LATER,
    // A tick later than it may be.
    Row {
        words: "audit rtu ab key 0 0 2..4",
        exit_status: 15,
        out: b"audit differs 0 sealed 1 passed 1 read 1\n\
          expected at 18 01030000000ac5cd\nfound at 23 01030000000ac5cd\n",
        ..LATER
    },
    // Behind a spacer. The frame's last byte leaves the receiver in tick 25, four silent ticks end
    // the frame, and so it is sent from tick 30 on.
    Row {
        words: "audit rtu ab key 0 0 0..0 spaced",
        text: b"+01030000000ac5cd\n-40\n%\n\
          +01030000000ac5cd\n-3\n+0001014c5b8d33c6d29a347013b0\n-47\n%\n\
          -30\n+01030000000ac5cd\n-366\n",
        ..CLEAN
    },
    Row {
        text: b"%\n%\n",
        exit_status: 16,
        out: b"audit empty sealed 0 passed 0 read 0\n",
        ..CLEAN
    },
    // Another frame with the number of the one that was sealed.
    Row {
        text: b"+01030000000ac5cd\n-40\n%\n\
          +010300000001840a\n-3\n+0001ec3beb0f43a9c825b948c840\n-47\n%\n\
          -18\n+010300000001840a\n-366\n",
        exit_status: 14,
        out: b"audit forged 1 at 0 sealed 1 passed 1 read 1\n",
        ..CLEAN
    },
    // The second frame that was read isn't the second one that passed.
    Row {
        text: b"+01030000000ac5cd\n-92\n+010300000001840a\n-92\n%\n\
          +01030000000ac5cd\n-3\n+0001014c5b8d33c6d29a347013b0\n-75\n\
          +010300000001840a\n-3\n+0002ee5b1d1d6fc159af2411aeb5\n-75\n%\n\
          -18\n+01030000000ac5cd\n-92\n+01030000000ac5cd\n-366\n",
        exit_status: 15,
        out: b"audit differs 1 sealed 2 passed 2 read 2\n\
          expected at 118 010300000001840a\nfound at 118 01030000000ac5cd\n",
        ..CLEAN
    },
    // The transmitter's floor is 6, so it never sealed number 6, which the receiver passes.
    Row {
        words: "audit rtu ab key 6 5",
        text: b"+01030000000ac5cd\n-40\n%\n\
          +01030000000ac5cd\n-3\n+0006bffa8bcd3f6ad232de11820a\n-47\n%\n\
          -18\n+01030000000ac5cd\n-366\n",
        exit_status: 14,
        out: b"audit forged 6 at 0 sealed 1 passed 1 read 1\n",
        ..CLEAN
    },
    Row {
        words: "audit dnp24 ab key 0 0",
        text: b"+056405c001000004e921\n-40\n%\n\
          +056405c001000004e921\n-3\n+00000001cd525d6a6c119047d45db5ba9f9e4290\n-47\n%\n\
          -24\n+056405c001000004e921\n-366\n",
        ..CLEAN
    },
    Row {
        fails: (2, 0),
        exit_status: 5,
        out: b"",
        log: READ_FAULT,
        ..CLEAN
    },
];

/// The request, whose packet in the outgoing direction comes back 40 ticks later: it goes to the
/// device with its last byte spoiled.
const REFLECTED: Row = Row {
    words: "duplex rtu ab key",
    text: b"+01030000000ac5cd\n-40\n%\n+01030000000ac5cd\n-3\n+0001014c5b8d33c6d29a347013b0\n",
    out: b"+01030000000ac5cd\n-3\n+0001014c5b8d33c6d29a347013b0\n-343\n%\n\
      -18\n+01030000000ac5cc\n-342\n",
    log: b"sealed 1 at 0 len 8\nrefused at 0 tag\n",
    ..READ
};

/// A request comes over the link at ticks 0 to 24. An attacker's burst follows at 29 to 37, so that
/// it would begin in the last tick of the answer, which the device gives at 42 to 48. But for its
/// first byte the burst is a frame.
const ATTACKED: &[u8] = b"-42\n+010302002a399b\n%\n\
    +01030000000ac5cd\n-3\n+0001014c5b8d33c6d29a347013b0\n-4\n+5501060001beefe826\n";

/// Runs of `duplex`. The burst of `ATTACKED` goes to the device as it is. A device that is deaf up
/// to its first byte, since it still answers, reads a frame that nobody sealed.
pub const DOUBLE: &[Row] = &[
    REFLECTED,
    // The first write fails: the log has all notes already.
    Row {
        fails: (0, 1),
        exit_status: 6,
        out: b"",
        ..REFLECTED
    },
    Row {
        text: b"+01030000000ac5cd\nx",
        exit_status: 4,
        out: b"",
        log: b"fault: line 2 char\n",
        ..REFLECTED
    },
    Row {
        words: "duplex rtu ba key",
        text: ATTACKED,
        out: b"-42\n+010302002a399b\n-3\n+0001f39538b12dcd54a57ff24933\n-303\n\
            %\n-18\n+01030000000ac5cd\n-21\n+5501060001beefe826\n-313\n",
        log: b"passed 1 at 0 len 8\nrefused at 29 trailer\nsealed 1 at 42 len 7\n",
        ..REFLECTED
    },
    Row {
        words: "read rtu",
        text: b"-18\n+01030000000ac5cd\n-22\n+01060001beefe826\n",
        out: b"read at 18 01030000000ac5cd\nread at 48 01060001beefe826\n",
        ..READ
    },
];

/// A master asks at ticks 0 to 7, and the answer of a device comes over the link at 33 to 56.
const ANSWERED: Row = Row {
    words: "two_wire rtu ab answers 45 4 key",
    text: b"+01030000000ac5cd\n-51\n%\n\
      -33\n+010302002a399b\n-3\n+0001f39538b12dcd54a57ff24933\n",
    out: b"-1\n+01030000000ac5cd\n-3\n+0001014c5b8d33c6d29a347013b0\n-353\n\
      %\n-52\n+010302002a399b\n-320\n",
    log: b"sealed 1 at 0 len 8\npassed 1 at 33 len 7\n",
    ..READ
};

/// A request comes over the link at ticks 1 to 25, and a device answers it at 32 to 38.
const ASKED: Row = Row {
    words: "two_wire rtu ba asks 20 4 key",
    text: b"-32\n+010302002a399b\n%\n\
      -1\n+01030000000ac5cd\n-3\n+0001014c5b8d33c6d29a347013b0\n",
    out: b"-33\n+010302002a399b\n-3\n+0001f39538b12dcd54a57ff24933\n-302\n\
      %\n-20\n+01030000000ac5cd\n-331\n",
    log: b"passed 1 at 1 len 8\nsealed 1 at 32 len 7\n",
    ..READ
};

/// The request at 0 to 24, and an attacker's burst of two bytes at 34 and 35 of the link.
const FOLLOWED: Row = Row {
    words: "two_wire rtu ba asks 19 4 key",
    text: b"-42\n+010302002a399b\n%\n\
      +01030000000ac5cd\n-3\n+0001014c5b8d33c6d29a347013b0\n-9\n+5501\n",
    out: b"-43\n+010302002a399b\n-3\n+0001f39538b12dcd54a57ff24933\n-302\n\
      %\n-19\n+01030000000ac5cd\n-26\n+5501\n-314\n",
    log: b"passed 1 at 0 len 8\nrefused at 34 trailer\nsealed 1 at 42 len 7\n",
    ..READ
};

/// What goes out of a box that asks, if the attacker's burst is kept back.
const WITHOUT_BURST: &[u8] = b"-43\n+010302002a399b\n-3\n+0001f39538b12dcd54a57ff24933\n-302\n\
    %\n-19\n+01030000000ac5cd\n-342\n";

/// Runs of `two_wire`: the least waits with which a burst is let through, and those with which it is
/// kept back.
pub const SHARED: &[Row] = &[
    ANSWERED,
    // The same with an echo of what the box drives: the answer at ticks 52 to 58, and the request
    // and its trailer at 1 to 25 of the link.
    Row {
        text: b"+01030000000ac5cd\n-44\n+010302002a399b\n%\n\
          -1\n+01030000000ac5cd\n-3\n+0001014c5b8d33c6d29a347013b0\n\
          -7\n+010302002a399b\n-3\n+0001f39538b12dcd54a57ff24933\n",
        ..ANSWERED
    },
    Row {
        words: "two_wire rtu ab answers 44 4 key",
        out: b"-1\n+01030000000ac5cd\n-3\n+0001014c5b8d33c6d29a347013b0\n-353\n%\n-379\n",
        log: b"sealed 1 at 0 len 8\nheld at 52\npassed 1 at 33 len 7\n",
        ..ANSWERED
    },
    ASKED,
    Row {
        words: "two_wire rtu ba asks 21 4 key",
        out: b"-33\n+010302002a399b\n-3\n+0001f39538b12dcd54a57ff24933\n-302\n%\n-359\n",
        log: b"held at 20\npassed 1 at 1 len 8\nsealed 1 at 32 len 7\n",
        ..ASKED
    },
    FOLLOWED,
    Row {
        words: "two_wire rtu ba asks 19 5 key",
        out: WITHOUT_BURST,
        log: b"passed 1 at 0 len 8\nrefused at 34 trailer\nsealed 1 at 42 len 7\nheld at 53\n",
        ..FOLLOWED
    },
    Row {
        text: ATTACKED,
        out: WITHOUT_BURST,
        log: b"passed 1 at 0 len 8\nrefused at 29 trailer\nheld at 48\nsealed 1 at 42 len 7\n",
        ..FOLLOWED
    },
    Row {
        text: b"+01030000000ac5cd\n",
        exit_status: 4,
        out: b"",
        log: b"fault: line 2 mark\n",
        ..FOLLOWED
    },
];
