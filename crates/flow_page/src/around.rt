//! Pictures around violations.

ghost use Rattle.std.specs.Prelude.{◌≡◌, ◌≤◌, ◌^◌, ◌++◌, IfOk, string_bytes};
ghost use Rattle.std.specs.List.{flat_map};
ghost use Rattle.timing_report.specs.Outcomes.{place_of};
ghost use Rattle.flow_page.specs.Around.{around_ahead, around_count, around_detail, around_figure, around_figures};
ghost use Rattle.flow_page.specs.Around.{around_if, around_scene, around_title, broken_line};

use crate::chart::{Across, Limit, LineName, Scene, Shade, Unit, UnitAcross, add_curve_figure};
use crate::levels::{line_name, one_line};
use crate::shown::{Region, TypeShown};
use flow_measure::width_of;
use std::alloc::{AllocError as OutOfMemory, Global};
use timing_base::{Broken, FailProof, Kind};
use timing_report::{kind_name, model_name};

/// Returns the line that is broken: the limit of the type, or the line at 0 if the buffer underflows.
fn broken_line(shown: &TypeShown, model: Broken) -> Limit
    ensures { result ≡ broken_line shown.now model }
{
    match model {
        Broken::Bucket => Limit {
            name: line_name(shown.kind),
            at: i128::from(shown.c_max),
        },
        Broken::Over => Limit {
            name: line_name(shown.kind),
            at: i128::from(shown.vrx_full),
        },
        Broken::Empty => Limit {
            name: LineName::Empty,
            at: 0,
        },
    }
}

/// Returns the title of a picture.
fn around_title(alloc: Global, kind: Kind, model: Broken) -> Result<String, OutOfMemory>
    ensures { IfOk result (λ s. string_bytes s ≡ around_title kind model) }
{
    let (kind, model) = (kind_name(kind), model_name(model));
    format!(in alloc; "Around the fail: {kind}, {model}")
}

/// Returns the text on the packets of the violation, with count and limit.
fn around_count(alloc: Global, proof: FailProof) -> Result<String, OutOfMemory>
    ensures { IfOk result (λ s. string_bytes s ≡ around_count proof) }
{
    format!(in alloc;
        "packets {} to {}: count {}, limit {}",
        proof.from, proof.to, proof.count, proof.limit
    )
}

/// Returns the text on the packets of the violation, if the first `ahead` of them come before the picture.
fn around_ahead(alloc: Global, proof: FailProof, ahead: u64) -> Result<String, OutOfMemory>
    ensures { IfOk result (λ s. string_bytes s ≡ around_ahead proof ahead) }
{
    format!(in alloc;
        "packets {} to {}: count {}, limit {}; the first {} of them come before the picture",
        proof.from, proof.to, proof.count, proof.limit, ahead
    )
}

/// Returns the text beside the picture.
fn around_detail(alloc: Global, region: &Region) -> Result<String, OutOfMemory>
    ensures { IfOk result (λ s. string_bytes s ≡ around_detail region.now) }
{
    let ahead = region.start.saturating_sub(region.proof.from);
    if ahead == 0 {
        around_count(alloc, region.proof)
    } else {
        around_ahead(alloc, region.proof, ahead)
    }
}

/// Returns the scene of the packets in the picture, with those of the violation shaded.
fn around_scene(region: &Region) -> Scene
    ensures value { result ≡ around_scene region.now }
    ensures few { result.across.count ≤ 2 ^ 60 }
{
    let across = Across {
        start: region.start,
        count: region.count.min(1 << 60),
        each: width_of(region.count, 400),
    };
    let shade = Shade {
        from: region.proof.from.saturating_sub(region.start),
        to: region.proof.to.saturating_sub(region.start),
    };
    Scene {
        wide: false,
        unit: Unit::Packets,
        along: UnitAcross::Packet,
        across,
        every: 0,
        shade: Some(shade),
    }
}

/// Adds the picture around a violation of this type.
fn add_around(
    text: &mut String,
    alloc: Global,
    shown: &TypeShown,
    region: &Region,
) -> Result<(), OutOfMemory>
    ensures { IfOk result (λ _. string_bytes text.new ≡ string_bytes text.old ++ around_figure shown.now region.now) }
{
    let title = around_title(alloc, shown.kind, region.proof.model)?;
    let detail = around_detail(alloc, region)?;
    let lines = one_line(alloc, broken_line(shown, region.proof.model))?;
    let scene = around_scene(region);
    let columns = region.columns.as_slice();
    add_curve_figure(
        text,
        alloc,
        title.as_str(),
        detail.as_str(),
        scene,
        lines.as_slice(),
        columns,
    )
}

/// Returns the place of a type in the order N, NL, W, from 0.
fn place_of(kind: Kind) -> u32
    ensures { result ≡ place_of kind }
{
    match kind {
        Kind::N => 0,
        Kind::NL => 1,
        Kind::W => 2,
    }
}

/// Adds a picture if it belongs to this type.
#[tactic(auto, unfolding(crate::specs::Around::around_if))]
fn add_around_if(
    text: &mut String,
    alloc: Global,
    shown: &TypeShown,
    region: &Region,
) -> Result<(), OutOfMemory>
    ensures { IfOk result (λ _. string_bytes text.new ≡ string_bytes text.old ++ around_if shown.now region.now) }
{
    if place_of(region.kind) == place_of(shown.kind) {
        add_around(text, alloc, shown, region)
    } else {
        Ok(())
    }
}

/// Adds the pictures around violations of this type.
fn add_around_type(
    text: &mut String,
    alloc: Global,
    shown: &TypeShown,
    regions: &[Region],
) -> Result<(), OutOfMemory>
    ensures { IfOk result (λ _. string_bytes text.new
        ≡ string_bytes text.old ++ flat_map (around_if shown.now) regions.now) }
{
    for region in regions {
        add_around_if(text, alloc, shown, region)?;
    }
    Ok(())
}

/// Adds the pictures around violations of all types.
pub(crate) fn add_around_figures(
    text: &mut String,
    alloc: Global,
    types: &[TypeShown],
    regions: &[Region],
) -> Result<(), OutOfMemory>
    ensures { IfOk result (λ _. string_bytes text.new
        ≡ string_bytes text.old ++ around_figures types.now regions.now) }
{
    for shown in types {
        add_around_type(text, alloc, shown, regions)?;
    }
    Ok(())
}
