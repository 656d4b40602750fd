//! The few shapes that a picture is a list of: first values, and then elements.
ghost use Rattle.std.specs.Prelude.{◌≡◌, [], ◌++◌, ◌∷◌, codes, decimal, IfOk, OnOk};
ghost use Rattle.chart_escape.specs.Reader.{at, read, AddsElements, Between, InText, IsBetweenTags, IsWellFormed};
ghost use Rattle.chart_svg.specs.Drawn.{class_bytes, figure_bytes, outline, words_bytes, Stands};
ghost use Rattle.chart_svg.specs.Shapes.{picture, shape_bytes, shapes_bytes, shapes_in};

use crate::elements::push_form;
use crate::page::Page;
use crate::pixels::Px;
use crate::wording::Pushed;
use chart_escape::{Piece, push_pieces};
use lock_model::{LockNo, push_digits, push_number};
use std::alloc::{AllocError, Global};

/// A class of the style: a word, and for what has a lock's colour the lock's number behind it. What isn't drawn has
/// none.
#[derive(Clone, Copy)]
pub enum Class {
    None,
    Word(&'static str),
    OfLock(&'static str, LockNo),
}

impl Class {
    fn text(self, alloc: Global) -> Result<Vec<u8>, AllocError>
        ensures { IfOk result (λ text. text.items ≡ class_bytes self) }
    {
        match self {
            Class::None => Ok(Vec::new(alloc)),
            Class::Word(word) => Vec::from_slice(alloc, word.as_bytes()),
            Class::OfLock(word, l) => {
                let mut text = Vec::from_slice(alloc, word.as_bytes())?;
                push_digits(&mut text, u64::from(l.0))?;
                Ok(text)
            }
        }
    }
}

/// A rectangle.
#[derive(Clone, Copy)]
pub struct Area {
    pub x: Px,
    pub y: Px,
    pub width: u32,
    pub height: u32,
}

/// A small figure at a point.
#[derive(Clone, Copy)]
pub enum Figure {
    /// The head of an arrow that points up, with its tip there.
    Up,
    /// One that points down.
    Down,
    /// A cross round the point.
    Cross,
}

impl Figure {
    // Its outline, as SVG writes one, from its point.
    fn outline(self) -> &'static [u8]
        ensures { result.now ≡ outline self }
    {
        match self {
            Figure::Up => b"l-4 8h8z",
            Figure::Down => b"l-4-8h8z",
            Figure::Cross => b"m-5-5l10 10m0-10l-10 10",
        }
    }
}

/// A thing of a picture, or what is said of all of it, with its class.
#[derive(Drop)]
pub struct Shape(pub Class, pub Form);

/// What a shape is but for its class.
#[derive(Drop)]
pub enum Form {
    /// A rectangle with round corners, and what is said of it where it is pointed at, if anything is.
    Rect(Area, Option<Vec<u8>>),
    /// A dot at a point, and what is said of it.
    Dot((Px, Px), Vec<u8>),
    /// A line from one point to another.
    Line((Px, Px), (Px, Px)),
    /// A path, as SVG writes one, and what is said of it.
    Curve(Vec<u8>, Vec<u8>),
    /// Words, whose baseline begins, or else ends or has its middle there, as the class says.
    Words((Px, Px), Vec<u8>),
    /// What is read aloud of the picture: a title, and more.
    Heading(Vec<u8>, Vec<u8>),
    /// The rules of the style.
    Style(Vec<u8>),
    /// A hatching, by the name that the rules have for it.
    Hatch(Vec<u8>),
}

/// Shapes, or want of memory.
pub type Shapes = Result<Vec<Shape>, AllocError>;

/// A shape or none, or want of memory.
pub type MaybeShape = Result<Option<Shape>, AllocError>;

/// Adds a shape behind others.
pub fn add(shapes: &mut Vec<Shape>, shape: Shape) -> Pushed
    ensures { OnOk result (shapes.new.items ≡ shapes.old.items ++ shape ∷ []) }
{
    shapes.push(shape)?;
    Ok(())
}

/// Adds a shape, if there is one.
pub fn add_some(shapes: &mut Vec<Shape>, shape: Option<Shape>) -> Pushed
    ensures { OnOk result (shapes.new.items ≡ shapes.old.items ++ shapes_in shape) }
{
    match shape {
        Some(shape) => add(shapes, shape),
        None => Ok(()),
    }
}

/// Adds shapes behind others.
pub fn add_all(shapes: &mut Vec<Shape>, more: Vec<Shape>) -> Pushed
    ensures { OnOk result (shapes.new.items ≡ shapes.old.items ++ more.items) }
{
    let mut more = more;
    shapes.append(&mut more)
}

/// Adds a copy of words at a point.
pub fn add_words(
    alloc: Global,
    shapes: &mut Vec<Shape>,
    class: Class,
    at: (Px, Px),
    words: &[u8],
) -> Pushed {
    add(shapes, Shape::words(alloc, class, at, words)?)
}

impl Shape {
    /// A copy of words at a point.
    pub fn words(
        alloc: Global,
        class: Class,
        at: (Px, Px),
        words: &[u8],
    ) -> Result<Shape, AllocError>
        ensures { IfOk result (λ shape. shape_bytes shape
            ≡ words_bytes (class_bytes class) at.0.0 at.1.0 words.now) }
    {
        Ok(Shape(class, Form::Words(at, Vec::from_slice(alloc, words)?)))
    }

    /// A number at a point.
    pub fn number(
        alloc: Global,
        class: Class,
        at: (Px, Px),
        number: u32,
    ) -> Result<Shape, AllocError> {
        let mut words = Vec::new(alloc);
        push_digits(&mut words, u64::from(number))?;
        Ok(Shape(class, Form::Words(at, words)))
    }

    /// A small figure at a point, and what is said of it.
    pub fn figure(
        alloc: Global,
        class: Class,
        figure: Figure,
        at: (Px, Px),
        said: Vec<u8>,
    ) -> Result<Shape, AllocError>
        ensures { IfOk result (λ shape. shape_bytes shape
            ≡ figure_bytes (class_bytes class) figure at.0.0 at.1.0 said.items) }
    {
        let mut path = begin_path(alloc, at.0, at.1)?;
        path.extend_from_slice(figure.outline())?;
        Ok(Shape(class, Form::Curve(path, said)))
    }
}

/// The begin of a path, as SVG writes one, at a point.
pub fn begin_path(alloc: Global, x: Px, y: Px) -> Result<Vec<u8>, AllocError>
    ensures { IfOk result (λ path. path.items ≡ codes "M" ++ decimal x.0 ++ 32 ∷ decimal y.0) }
{
    let mut path = Vec::from_slice(alloc, b"M")?;
    push_digits(&mut path, u64::from(x.0))?;
    push_number(&mut path, u64::from(y.0))?;
    Ok(path)
}

/// The picture of shapes, of that size, which says where the columns and the lanes of a page are.
pub fn picture_of(
    alloc: Global,
    page: &Page<'_>,
    size: (u32, u32),
    shapes: &[Shape],
) -> Result<Vec<u8>, AllocError>
    ensures whole { IfOk result (λ picture. IsWellFormed picture.items) }
    ensures stands { IfOk result (λ picture. Stands picture.items (shapes_bytes shapes.now)) }
{
    let mut out = Vec::new(alloc);
    open_picture(&mut out, page, size)?;
    push_shapes(alloc, &mut out, shapes)?;
    push_pieces(&mut out, &[Piece::Own("</svg>\n")])?;
    Ok(out)
}

fn open_picture(out: &mut Vec<u8>, page: &Page<'_>, size: (u32, u32)) -> Pushed
    requires { out.old.items ≡ [] }
    ensures { OnOk result (read out.new.items ≡ at (InText Between) (picture ∷ [])) }
{
    let (width, height) = (u64::from(size.0), u64::from(size.1));
    push_pieces(
        out,
        &[
            Piece::Own("<svg xmlns='http://www.w3.org/2000/svg' width='"),
            Piece::Number(width),
            Piece::Own("' height='"),
            Piece::Number(height),
            Piece::Own("' viewBox='0 0 "),
            Piece::Number(width),
            Piece::Own(" "),
            Piece::Number(height),
            Piece::Own("' data-left='"),
            Piece::Number(u64::from(page.left.0)),
            Piece::Own("' data-column='"),
            Piece::Number(u64::from(page.column)),
            Piece::Own("' data-top='"),
            Piece::Number(u64::from(page.top.0)),
            Piece::Own("' data-bottom='"),
            Piece::Number(u64::from(page.bottom.0)),
            Piece::Own("'>\n"),
        ],
    )
}

// Each shape is written whole, so that behind it a reader is between tags again.
fn push_shapes(alloc: Global, out: &mut Vec<u8>, shapes: &[Shape]) -> Pushed
    requires { IsBetweenTags out.old.items }
    ensures whole { OnOk result (AddsElements out.old.items out.new.items) }
    ensures pushed { OnOk result (out.new.items ≡ out.old.items ++ shapes_bytes shapes.now) }
{
    for shape in shapes {
        push_form(out, &shape.0.text(alloc)?, &shape.1)?;
    }
    Ok(())
}
