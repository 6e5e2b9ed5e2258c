//! Dumps of bytes, with the bits that a UART sends for each.

use capture_text::{Change, DumpWriter, MAX_TICKS, Wires, change_text, dump};
use line_stamps::Rate;
use std::alloc::Global;
use std::process::Abort;
use std::test::Fail;
use yasir_ticks::Tick;

/// Returns the dump of the ticks of both wires, made tick by tick.
fn dump_by_ticks(
    alloc: Global,
    rate: Rate,
    wires: Wires,
    ticks: &[(Tick, Tick)],
) -> Result<Vec<u8>, Fail> {
    let mut writer = DumpWriter::new(rate, wires);
    let mut text = Vec::new(alloc);
    text.extend_from_slice(writer.front())?;
    for (a, b) in ticks {
        if writer.ticks() >= MAX_TICKS {
            break;
        }
        text.extend_from_slice(writer.tick(*a, *b).as_slice())?;
    }
    text.extend_from_slice(writer.end().as_slice())?;
    Ok(text)
}

/// Byte 01 at 9,600 baud with even parity, a quiet tick, and byte 03 on the other wire. A bit takes
/// 104,166 2/3 nanoseconds, and tick 0 starts after 11 bits.
const PARITY: &[u8] = b"$timescale 1 ns $end
$scope module line $end
$var wire 1 ! a $end
$var wire 1 \" b $end
$upscope $end
$enddefinitions $end
#0
1!
1\"
#1145833
0!
#1250000
1!
#1354167
0!
#2083333
1!
#3437500
0\"
#3541667
1\"
#3750000
0\"
#4479167
1\"
#5729167
";

/// Byte 55 at 10 bits, on one wire: the level changes with each bit.
const PLAIN: &[u8] = b"$timescale 1 ns $end
$scope module line $end
$var wire 1 ! a $end
$upscope $end
$enddefinitions $end
#0
1!
#160000
0!
#176000
1!
#192000
0!
#208000
1!
#224000
0!
#240000
1!
#256000
0!
#272000
1!
#288000
0!
#304000
1!
#480000
";

fn check(rt: &impl Abort, text: &Vec<u8>, all: &[u8]) {
    assert_eq!(rt; text.as_slice(), all);
}

#[test]
fn dumps_of_bytes(rt: HostRuntime) -> Result<(), Fail> {
    let alloc = rt.alloc();
    let rate = Rate {
        baud: 9600,
        bits: 11,
    };
    let ticks = [
        (Tick::Byte(0x01), Tick::Silent),
        (Tick::Silent, Tick::Silent),
        (Tick::Silent, Tick::Byte(0x03)),
    ];
    let text = dump_by_ticks(alloc, rate, Wires::Two, &ticks)?;
    check(&rt, &text, PARITY);
    let rate = Rate {
        baud: 62500,
        bits: 10,
    };
    let text = dump_by_ticks(alloc, rate, Wires::One, &[(Tick::Byte(0x55), Tick::Silent)])?;
    check(&rt, &text, PLAIN);
    // a whole dump of the same lines, of which the second one is longer
    let a = [Tick::Byte(0x01)];
    let b = [Tick::Silent, Tick::Silent, Tick::Byte(0x03)];
    let whole = dump(
        alloc,
        Rate {
            baud: 9600,
            bits: 11,
        },
        &a,
        &b,
    )?;
    check(&rt, &whole, PARITY);
    let one = change_text(Change {
        time: 7,
        way: line_stamps::Way::B,
        high: true,
    });
    assert_eq!(rt; one.as_slice(), b"#7\n1\"\n".as_slice());
    Ok(())
}
