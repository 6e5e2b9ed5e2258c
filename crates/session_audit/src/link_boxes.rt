//! The boxes of a link, which show their frames, and how many silent ticks they take after a
//! recording.

/// How many silent ticks, beyond the receiver's delay, follow the line of the device that sends, so
/// that its last burst is closed and its trailer is sent.
pub(crate) const DEVICE_REST: u32 = 6;

/// How many silent ticks follow the link if a spacer stands behind the receiver: enough for all that
/// passes to leave the receiver, and then for 64 frames that wait and one more, each of up to 292
/// bytes with 27 silent ticks after it, to leave the spacer and be read.
pub(crate) const SPACED_REST: u32 = 21_100;

/// Calls `$audit` with the transmitter, the receiver and the device of a row of `with_link`, and the
/// spacer behind that receiver. Both boxes show their frames.
macro_rules! audit_through {
    (
        [$rules:ty, $device:ty, $mac:ty, $word:literal, $delay:literal, $gap:literal],
        $audit:ident, [$($more:ty),*], $alloc:expr, $session:expr, $given:expr
    ) => {
        $audit::<
            $crate::SealedFrames<$rules, $mac, $word, yasir_io::SteadySlots>,
            $crate::ShownFrames<
                check_receiver::Checker<$rules, $mac, $word, $delay>,
                $rules,
                yasir_io::SteadySlots,
            >,
            $device,
            $crate::SpacedReads<$device, $gap>,
            $($more),*
        >($alloc, $session, $given)
    };
}

pub(crate) use audit_through;
