//! The page round the picture.
ghost use Rattle.std.specs.Prelude.{◌≡◌, IfOk};
ghost use Rattle.chart_html.specs.Page.{page_bytes, IsPage};

use crate::data::data_of;
use crate::fixed::{BEGIN, CONTROLS, SCRIPT, STYLE};
use chart_escape::push_text;
use chart_layout::Chart;
use chart_svg::svg;
use chart_words::push_words;
use lock_model::Plan;
use run_tracks::Rows;
use std::alloc::{AllocError, Global};

/// The page of a chart of the plan and of the rows that it shows, with a title and a line below it, either of which may
/// be empty: an HTML file. Whatever stands in these, no tag of the page is made or broken by it. It fails where memory
/// runs out.
///
/// ```
/// let page = html(alloc, &plan, &rows, &chart, "A lost wake-up", "")?;
/// ```
pub fn html(
    alloc: Global,
    plan: &Plan,
    rows: &Rows,
    chart: &Chart,
    title: &str,
    subtitle: &str,
) -> Result<Vec<u8>, AllocError>
    ensures { IfOk result (λ page. IsPage plan.now rows.now chart.now title.now
        page.items) }
{
    let picture = svg(alloc, plan, chart, title, subtitle)?;
    let known = data_of(alloc, plan, rows, chart)?;
    page_of(alloc, title, &picture, &known)
}

// The parts one behind the other.
fn page_of(alloc: Global, title: &str, picture: &[u8], known: &[u8]) -> Result<Vec<u8>, AllocError>
    ensures { IfOk result (λ page. page.items ≡ page_bytes title.now picture.now known.now) }
{
    let mut page = Vec::from_slice(alloc, BEGIN.as_bytes())?;
    push_text(&mut page, title.as_bytes())?;
    push_words(&mut page, STYLE.as_bytes())?;
    push_words(&mut page, picture)?;
    push_words(&mut page, CONTROLS.as_bytes())?;
    push_words(&mut page, known)?;
    push_words(&mut page, SCRIPT.as_bytes())?;
    Ok(page)
}
