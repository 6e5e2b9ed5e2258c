//! Tests of inputs with marks: the right number, and one too few.
use super::*;
use std::test::Fail;
use tick_drive::End;
use yasir_io::SteadySource;
use yasir_ticks::Tick;

#[test]
fn marks_part_the_lists(rt: HostRuntime) -> Result<(), Fail> {
    let mut input = SteadySource::new(b"+0102\n%\n-2\n+03\n%\n");
    let Ok(lists) = list_ticks(rt.alloc(), 2, &mut input) else {
        return Err("the input is right".into());
    };
    let (first, second) = (
        [Tick::Byte(1), Tick::Byte(2)],
        [Tick::Silent, Tick::Silent, Tick::Byte(3)],
    );
    assert_eq!(rt; lists.first(), first.as_slice());
    assert_eq!(rt; lists.second(), second.as_slice());
    assert_eq!(rt; lists.third().len(), 0);
    Ok(())
}

#[test]
fn an_input_with_a_mark_too_few_is_refused(rt: HostRuntime) -> Result<(), Fail> {
    let mut input = SteadySource::new(b"+0102\n");
    let ended = list_ticks(rt.alloc(), 1, &mut input);
    assert!(rt; matches!(ended, Err(End::Refused(_))));
    Ok(())
}
