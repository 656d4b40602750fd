//! The whole picture.
ghost use Rattle.std.specs.Prelude.{IfOk};
ghost use Rattle.chart_escape.specs.Reader.{IsWellFormed};
ghost use Rattle.chart_svg.specs.Drawn.{Draws};
ghost use Rattle.chart_svg.specs.Lanes.{IsLaidOut};
ghost use Rattle.chart_svg.specs.Pages.{FrameIsOn, LanesAreDrawn, LayerIsOn};
ghost use Rattle.chart_svg.specs.Shapes.{Show, ShowAll};

use crate::arrows::arrows;
use crate::bars::bars_of;
use crate::below::{Below, shapes_below};
use crate::frame::{columns, heading, hint, lane_frame, paper};
use crate::head::{TitleBlock, add_above};
use crate::marks::{marks, reasons};
use crate::page::{LaneBand, Page};
use crate::shapes::{Shape, Shapes, add, add_all, add_some, picture_of};
use crate::strips::{labels_of, strip_of};
use crate::style::add_style;
use chart_layout::Chart;
use lock_model::Plan;
use std::alloc::{AllocError, Global};

/// The picture of a chart of the plan, with a title and a line below it, either of which may be empty: an SVG file. It
/// fails where memory runs out.
///
/// ```
/// let picture = svg(alloc, &plan, &chart, "A lost wake-up", "")?;
/// ```
pub fn svg(
    alloc: Global,
    plan: &Plan,
    chart: &Chart,
    title: &str,
    subtitle: &str,
) -> Result<Vec<u8>, AllocError>
    ensures whole { IfOk result (λ picture. IsWellFormed picture.items) }
    ensures draws { IfOk result (λ picture. Draws plan.now chart.now picture.items) }
{
    let head = TitleBlock::make(alloc, title, subtitle)?;
    let page = Page::make(alloc, plan, chart, head.bottom)?;
    let below = Below::make(alloc, &page)?;
    let heading = heading(alloc, &page, title, subtitle)?;
    picture_with(alloc, &page, heading, &head, &below)
}

// The picture of a page, what is read aloud of it, and what stands above and below its lanes.
fn picture_with(
    alloc: Global,
    page: &Page<'_>,
    heading: Shape,
    head: &TitleBlock,
    below: &Below,
) -> Result<Vec<u8>, AllocError>
    requires { IsLaidOut page.now }
    ensures whole { IfOk result (λ picture. IsWellFormed picture.items) }
    ensures drawn { IfOk result (λ picture. LanesAreDrawn page.now picture.items) }
{
    let width = page.right().plus(118).max(below.right).max(head.width());
    let size = (width.0, below.bottom.0);
    let mut shapes = Vec::new(alloc);
    add(&mut shapes, heading)?;
    add_style(alloc, &mut shapes, page.plan)?;
    add(&mut shapes, paper(size))?;
    add_above(alloc, &mut shapes, page, head, width.minus(24))?;
    add_all(&mut shapes, shapes_in_lanes(alloc, page)?)?;
    add_all(&mut shapes, shapes_below(alloc, below)?)?;
    picture_of(alloc, page, size, &shapes)
}

// What stands in the lanes and beside them, the words in front.
fn shapes_in_lanes(alloc: Global, page: &Page<'_>) -> Shapes
    requires { IsLaidOut page.now }
    ensures { IfOk result (λ shapes. Show shapes.items (LanesAreDrawn page.now)) }
{
    let arrows = arrows(alloc, page)?;
    let mut shapes = frame(alloc, page)?;
    add_all(&mut shapes, layer_of_lanes(alloc, page, Layer::Strip)?)?;
    add_all(&mut shapes, arrows.lines)?;
    add_all(&mut shapes, layer_of_lanes(alloc, page, Layer::Bars)?)?;
    add_all(&mut shapes, layer_of_lanes(alloc, page, Layer::Labels)?)?;
    add_all(&mut shapes, arrows.heads)?;
    add_all(&mut shapes, marks(alloc, page)?)?;
    add_all(&mut shapes, reasons(alloc, page)?)?;
    Ok(shapes)
}

// What stands behind all else: the columns, and the frames of the lanes.
fn frame(alloc: Global, page: &Page<'_>) -> Shapes
    ensures { IfOk result (λ shapes.
        ShowAll shapes.items (FrameIsOn page.now) page.now.lanes.items) }
{
    let mut shapes = columns(alloc, page)?;
    add_all(&mut shapes, layer_of_lanes(alloc, page, Layer::Frame)?)?;
    add_some(&mut shapes, hint(alloc, page)?)?;
    Ok(shapes)
}

// What is drawn of a lane, each layer of all lanes before the next.
#[derive(Clone, Copy)]
enum Layer {
    Frame,
    Strip,
    Bars,
    // The words of loans.
    Labels,
}

fn layer_of_lanes(alloc: Global, page: &Page<'_>, layer: Layer) -> Shapes
    ensures { IfOk result (λ shapes.
        ShowAll shapes.items (LayerIsOn layer page.now) page.now.lanes.items) }
{
    let mut shapes = Vec::new(alloc);
    for lane in &page.lanes {
        add_all(&mut shapes, layer_of_lane(alloc, page, lane, layer)?)?;
    }
    Ok(shapes)
}

fn layer_of_lane(alloc: Global, page: &Page<'_>, lane: &LaneBand, layer: Layer) -> Shapes
    ensures { IfOk result (λ shapes.
        Show shapes.items (λ picture. LayerIsOn layer page.now picture lane.now)) }
{
    match layer {
        Layer::Frame => lane_frame(alloc, page, lane),
        Layer::Strip => strip_of(alloc, page, lane),
        Layer::Bars => bars_of(alloc, page, lane),
        Layer::Labels => labels_of(alloc, page, lane),
    }
}
