//! Tables in which no two stations have the same name.
ghost use Rattle.std.specs.Prelude.{◌≡◌, OnOk, IfErr};
ghost use Rattle.stations.specs.Table.{has_station};
ghost use Rattle.station_boxes.specs.Served.{table_of};
ghost use Rattle.station_boxes.specs.OwnNames.{HaveOwnNames, IsNamedTwice};

use crate::Station;
use crate::station::place_of;
use thiserror::Error;

/// Two stations of a table have this name.
#[derive(Clone, Copy, Debug, PartialEq, Eq, Error)]
#[error("the station {name} stands in the table twice")]
pub struct NamedTwice {
    /// The name of both.
    pub name: u16,
}

// Whether a station has this name.
pub(crate) fn has_name<D>(stations: &[Station<D>], name: u16) -> bool
    ensures { result ≡ has_station (table_of stations.now) name }
{
    match place_of(stations, name) {
        Some(_) => true,
        None => false,
    }
}

/// Checks that no two stations have the same name. It refuses the first whose name an earlier one
/// has.
pub fn check_names<D>(stations: &[Station<D>]) -> Result<(), NamedTwice>
    /// If it succeeds, no two stations have the same name.
    ensures own { OnOk result (HaveOwnNames stations.now) }
    /// If it fails, the first station whose name an earlier one has has the name that is told.
    ensures twice { IfErr result (λ fault. IsNamedTwice stations.now fault.name) }
{
    for place in 0..stations.len() {
        let name = stations[place].name;
        if has_name(&stations[..place], name) {
            return Err(NamedTwice { name });
        }
    }
    Ok(())
}
