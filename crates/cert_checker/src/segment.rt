//! The segments of a flow, and their ends.

ghost use Rattle.std.specs.Prelude.{◌≡◌, IsOk};
ghost use Rattle.std.specs.List.{list_all};
ghost use Rattle.np_model.specs.Scheme.Segments.{last_end, last_slope};
ghost use Rattle.np_model.specs.Network.Arcs.{is_finite, is_under};
ghost use Rattle.cert_checker.specs.Walk.{band_end, end_of};
ghost use Rattle.cert_checker.specs.Steps.Parts.{map_segment, end_beyond, segment_beyond};

use np_frac::{Frac, Past};
use np_model::{Band, Flow, Upper};

/// The amounts from `start` to `end`, where a unit costs `slope`.
#[derive(Clone, Copy, Debug, PartialEq, Eq)]
pub struct Segment {
    pub start: Frac,
    pub end: Upper,
    pub slope: Frac,
}

// The sum of an end and a width.
fn band_end(end: Frac, width: Upper) -> Result<Upper, Past>
    ensures { result ≡ band_end end width }
{
    match width {
        Upper::Finite(width) => {
            let sum = end.plus(width)?;
            Ok(Upper::Finite(sum))
        }
        Upper::Infinite => Ok(Upper::Infinite),
    }
}

// The end of a band of this width beyond an end.
fn end_beyond(end: Upper, width: Upper) -> Result<Upper, Past>
    ensures { result ≡ end_beyond end width }
{
    match end {
        Upper::Finite(end) => band_end(end, width),
        Upper::Infinite => Ok(Upper::Infinite),
    }
}

/// The last end of a flow, or the first sum of an end and a width that overflows.
pub fn end_of(flow: &Flow) -> Result<Upper, Past>
    ensures { result ≡ end_of flow.now.upper flow.now.bands }
{
    let bands = flow.bands.as_slice();
    let mut end = flow.upper;
    for i in 0..bands.len() {
        end = end_beyond(end, bands[i].width)?;
    }
    Ok(end)
}

// Whether all bands have an end.
fn are_finite(bands: &[Band]) -> bool
    ensures { result ≡ list_all (λ band. is_finite band.width) bands.now }
{
    bands.iter().all(|band| band.width.is_finite())
}

/// Whether the last end of a flow is finite.
pub fn is_bounded(flow: &Flow) -> bool
    ensures { result ≡ is_finite (last_end flow.now.upper flow.now.bands) }
{
    flow.upper.is_finite() && are_finite(flow.bands.as_slice())
}

/// The slope of the last segment of a flow.
pub fn last_slope(flow: &Flow) -> Frac
    ensures { result ≡ last_slope flow.now.cost flow.now.bands }
{
    match flow.bands.as_slice().last() {
        Some(band) => band.slope,
        None => flow.cost,
    }
}

/// The segment that a band adds beyond an end, and none beyond an end that is infinite.
pub fn segment_beyond(end: Upper, band: Band) -> Option<Segment>
    requires { IsOk (end_beyond end band.width) }
    ensures { map_segment result ≡ segment_beyond end band }
{
    match end {
        Upper::Finite(start) => segment_from(start, band),
        Upper::Infinite => None,
    }
}

// The segment of a band from its start on. The sum is known to fit.
fn segment_from(start: Frac, band: Band) -> Option<Segment>
    requires { IsOk (end_beyond (Upper.Finite start) band.width) }
    ensures { map_segment result ≡ segment_beyond (Upper.Finite start) band }
{
    match band_end(start, band.width) {
        Ok(end) => Some(Segment {
            start,
            end,
            slope: band.slope,
        }),
        Err(_) => None,
    }
}
