//! The links of each stop, and the stops of each link.

use std::alloc::{AllocError, Global};
use tn_base::ids::PartId;
use tn_base::part::Kind;
use tn_base::port::Port;
use tn_part::site::Site;

/// The parts that a link joins, and the link's place among those that lead to the second.
#[derive(Clone, Copy)]
pub(crate) struct Ends {
    pub(crate) from: PartId,
    pub(crate) to: PartId,
    pub(crate) place: u32,
}

/// A link that leads away from a part, and its way.
#[derive(Clone, Copy)]
pub(crate) struct Exit {
    pub(crate) link: PartId,
    pub(crate) way: Port,
}

/// The links of a host, tile or router, in their order.
#[derive(Drop)]
pub(crate) struct Stop {
    /// The links that lead to the part.
    pub(crate) arrivals: Vec<PartId>,
    /// The links among these that may have a packet, by place.
    pub(crate) loaded: u32,
    /// The links that lead away from it.
    pub(crate) departures: Vec<Exit>,
}

/// The links of each visited part.
pub(crate) fn stops_of(
    alloc: Global,
    first_link: u32,
    sites: &[Site],
) -> Result<Vec<Stop>, AllocError> {
    let mut stops = Vec::new(alloc);
    for _ in 0..first_link {
        stops.push(Stop {
            arrivals: Vec::new(alloc),
            loaded: 0,
            departures: Vec::new(alloc),
        })?;
    }
    let mut l = 0u32;
    for site in sites {
        if let Kind::Link { from, to } = site.kind {
            if let Some(stop) = stops.get_mut(to.0 as usize) {
                stop.arrivals.push(PartId(l))?;
            }
            if let Some(stop) = stops.get_mut(from.0 as usize) {
                stop.departures.push(Exit {
                    link: PartId(l),
                    way: site.way,
                })?;
            }
        }
        l = l.wrapping_add(1);
    }
    Ok(stops)
}

/// The ends of each link, in order.
pub(crate) fn ends_of(
    alloc: Global,
    stops: &[Stop],
    sites: &[Site],
) -> Result<Vec<Ends>, AllocError> {
    let mut all = Vec::new(alloc);
    let mut l = 0u32;
    for site in sites {
        if let Kind::Link { from, to } = site.kind {
            let place = place_of(stops, to, PartId(l));
            all.push(Ends { from, to, place })?;
        }
        l = l.wrapping_add(1);
    }
    Ok(all)
}

/// The place of a link among those that lead to a part.
fn place_of(stops: &[Stop], to: PartId, l: PartId) -> u32 {
    let Some(stop) = stops.get(to.0 as usize) else {
        return 0;
    };
    let mut place = 0u32;
    for arrival in &stop.arrivals {
        if *arrival == l {
            return place;
        }
        place = place.wrapping_add(1);
    }
    0
}
