//! The elements as which shapes are written, each whole: behind it a reader is between tags again.
ghost use Rattle.std.specs.Prelude.{◌≡◌, ◌++◌, OnOk};
ghost use Rattle.chart_escape.specs.Reader.{AddsElements, IsBetweenTags};
ghost use Rattle.chart_svg.specs.Drawn.{curve_bytes, dot_bytes, rect_bytes, stroke_bytes, words_bytes};
ghost use Rattle.chart_svg.specs.Shapes.{form_bytes, hatch_bytes, heading_bytes, paper_bytes, style_bytes};

use crate::pixels::Px;
use crate::shapes::{Area, Form};
use crate::wording::Pushed;
use chart_escape::{Piece, push_elements};

/// Pushes a form, with its class.
pub fn push_form<'a>(out: &mut Vec<u8>, class: &'a [u8], form: &'a Form) -> Pushed
    requires { IsBetweenTags out.old.items }
    ensures whole { OnOk result (AddsElements out.old.items out.new.items) }
    ensures pushed { OnOk result (out.new.items ≡ out.old.items ++ form_bytes class.now form.now) }
{
    match form {
        Form::Rect(area, None) => push_paper(out, class, *area),
        Form::Rect(area, Some(said)) => push_rect(out, class, *area, said),
        Form::Dot(at, said) => push_dot(out, class, *at, said),
        Form::Line(from, to) => push_line(out, class, *from, *to),
        Form::Curve(path, said) => push_curve(out, class, path, said),
        Form::Words(at, words) => push_label(out, class, *at, words),
        Form::Heading(title, words) => push_heading(out, title, words),
        Form::Style(rules) => push_style(out, rules),
        Form::Hatch(name) => push_hatch(out, name),
    }
}

// A rectangle that says nothing.
#[tactic(auto, unfolding(crate::specs::Shapes::paper_bytes))]
fn push_paper(out: &mut Vec<u8>, class: &[u8], area: Area) -> Pushed
    requires { IsBetweenTags out.old.items }
    ensures whole { OnOk result (AddsElements out.old.items out.new.items) }
    ensures pushed { OnOk result (out.new.items ≡ out.old.items ++ paper_bytes class.now area) }
{
    push_elements(
        out,
        &[
            Piece::Own("<rect class='"),
            Piece::Text(class),
            Piece::Own("' x='"),
            Piece::Number(area.x.0 as u64),
            Piece::Own("' y='"),
            Piece::Number(area.y.0 as u64),
            Piece::Own("' width='"),
            Piece::Number(area.width as u64),
            Piece::Own("' height='"),
            Piece::Number(area.height as u64),
            Piece::Own("' rx='3'></rect>\n"),
        ],
    )
}

#[tactic(auto, unfolding(crate::specs::Drawn::rect_bytes))]
fn push_rect<'a>(out: &mut Vec<u8>, class: &'a [u8], area: Area, said: &'a [u8]) -> Pushed
    requires { IsBetweenTags out.old.items }
    ensures whole { OnOk result (AddsElements out.old.items out.new.items) }
    ensures pushed { OnOk result (out.new.items
        ≡ out.old.items ++ rect_bytes class.now area said.now) }
{
    push_elements(
        out,
        &[
            Piece::Own("<rect class='"),
            Piece::Text(class),
            Piece::Own("' x='"),
            Piece::Number(area.x.0 as u64),
            Piece::Own("' y='"),
            Piece::Number(area.y.0 as u64),
            Piece::Own("' width='"),
            Piece::Number(area.width as u64),
            Piece::Own("' height='"),
            Piece::Number(area.height as u64),
            Piece::Own("' rx='3'><title>"),
            Piece::Text(said),
            Piece::Own("</title></rect>\n"),
        ],
    )
}

#[tactic(auto, unfolding(crate::specs::Drawn::dot_bytes))]
fn push_dot<'a>(out: &mut Vec<u8>, class: &'a [u8], at: (Px, Px), said: &'a [u8]) -> Pushed
    requires { IsBetweenTags out.old.items }
    ensures whole { OnOk result (AddsElements out.old.items out.new.items) }
    ensures pushed { OnOk result (out.new.items
        ≡ out.old.items ++ dot_bytes class.now at.0.0 at.1.0 said.now) }
{
    push_elements(
        out,
        &[
            Piece::Own("<circle class='"),
            Piece::Text(class),
            Piece::Own("' cx='"),
            Piece::Number(at.0.0 as u64),
            Piece::Own("' cy='"),
            Piece::Number(at.1.0 as u64),
            Piece::Own("' r='3'><title>"),
            Piece::Text(said),
            Piece::Own("</title></circle>\n"),
        ],
    )
}

#[tactic(auto, unfolding(crate::specs::Drawn::stroke_bytes))]
fn push_line(out: &mut Vec<u8>, class: &[u8], from: (Px, Px), to: (Px, Px)) -> Pushed
    requires { IsBetweenTags out.old.items }
    ensures whole { OnOk result (AddsElements out.old.items out.new.items) }
    ensures pushed { OnOk result (out.new.items
        ≡ out.old.items ++ stroke_bytes class.now from.0.0 from.1.0 to.0.0 to.1.0) }
{
    push_elements(
        out,
        &[
            Piece::Own("<line class='"),
            Piece::Text(class),
            Piece::Own("' x1='"),
            Piece::Number(from.0.0 as u64),
            Piece::Own("' y1='"),
            Piece::Number(from.1.0 as u64),
            Piece::Own("' x2='"),
            Piece::Number(to.0.0 as u64),
            Piece::Own("' y2='"),
            Piece::Number(to.1.0 as u64),
            Piece::Own("'></line>\n"),
        ],
    )
}

#[tactic(auto, unfolding(crate::specs::Drawn::curve_bytes))]
fn push_curve<'a>(out: &mut Vec<u8>, class: &'a [u8], path: &'a [u8], said: &'a [u8]) -> Pushed
    requires { IsBetweenTags out.old.items }
    ensures whole { OnOk result (AddsElements out.old.items out.new.items) }
    ensures pushed { OnOk result (out.new.items
        ≡ out.old.items ++ curve_bytes class.now path.now said.now) }
{
    push_elements(
        out,
        &[
            Piece::Own("<path class='"),
            Piece::Text(class),
            Piece::Own("' d='"),
            Piece::Text(path),
            Piece::Own("'><title>"),
            Piece::Text(said),
            Piece::Own("</title></path>\n"),
        ],
    )
}

#[tactic(auto, unfolding(crate::specs::Drawn::words_bytes))]
fn push_label<'a>(out: &mut Vec<u8>, class: &'a [u8], at: (Px, Px), words: &'a [u8]) -> Pushed
    requires { IsBetweenTags out.old.items }
    ensures whole { OnOk result (AddsElements out.old.items out.new.items) }
    ensures pushed { OnOk result (out.new.items
        ≡ out.old.items ++ words_bytes class.now at.0.0 at.1.0 words.now) }
{
    push_elements(
        out,
        &[
            Piece::Own("<text class='"),
            Piece::Text(class),
            Piece::Own("' x='"),
            Piece::Number(at.0.0 as u64),
            Piece::Own("' y='"),
            Piece::Number(at.1.0 as u64),
            Piece::Own("'>"),
            Piece::Text(words),
            Piece::Own("</text>\n"),
        ],
    )
}

#[tactic(auto, unfolding(crate::specs::Shapes::heading_bytes))]
fn push_heading<'a>(out: &mut Vec<u8>, title: &'a [u8], words: &'a [u8]) -> Pushed
    requires { IsBetweenTags out.old.items }
    ensures whole { OnOk result (AddsElements out.old.items out.new.items) }
    ensures pushed { OnOk result (out.new.items
        ≡ out.old.items ++ heading_bytes title.now words.now) }
{
    push_elements(
        out,
        &[
            Piece::Own("<title>"),
            Piece::Text(title),
            Piece::Own("</title>\n<desc>"),
            Piece::Text(words),
            Piece::Own("</desc>\n"),
        ],
    )
}

#[tactic(auto, unfolding(crate::specs::Shapes::style_bytes))]
fn push_style(out: &mut Vec<u8>, rules: &[u8]) -> Pushed
    requires { IsBetweenTags out.old.items }
    ensures whole { OnOk result (AddsElements out.old.items out.new.items) }
    ensures pushed { OnOk result (out.new.items ≡ out.old.items ++ style_bytes rules.now) }
{
    push_elements(
        out,
        &[
            Piece::Own("<style>\n"),
            Piece::Text(rules),
            Piece::Own("</style>\n"),
        ],
    )
}

#[tactic(auto, unfolding(crate::specs::Shapes::hatch_bytes))]
fn push_hatch(out: &mut Vec<u8>, name: &[u8]) -> Pushed
    requires { IsBetweenTags out.old.items }
    ensures whole { OnOk result (AddsElements out.old.items out.new.items) }
    ensures pushed { OnOk result (out.new.items ≡ out.old.items ++ hatch_bytes name.now) }
{
    push_elements(
        out,
        &[
            Piece::Own("<pattern id='h"),
            Piece::Text(name),
            Piece::Own(
                "' width='7' height='7' patternTransform='rotate(45)' \
                patternUnits='userSpaceOnUse'>\
                <path class='paper' d='M0 0H7V7H0z'/><path class='hatch",
            ),
            Piece::Text(name),
            Piece::Own("' d='M0 0V7'/></pattern>\n"),
        ],
    )
}
