// The line that a run says of its drawing.
ghost use Rattle.std.specs.Prelude.{◌≡◌, ◌*◌, ◌<◌, ◌≤◌, ◌^◌, length, count_by, string_bytes, IfOk};
ghost use Rattle.draw_core.specs.Lines.{write_line};
ghost use Rattle.drawing.specs.Numbers.{SumsViews};
ghost use Rattle.draw_core.specs.Summary.{first_half, second_half, chain_part, summary_line, is_style, pieces_in, hatches_in, IsSummaryOf};
ghost use Rattle.fault_lines.specs.Told.{text_of as line_text};
ghost use Rattle.part_input.specs.declared.fault.Target.{Target};

use crate::lines::draw_line;
use drawing::{Drawing, ViewDrawing, ViewNumbers};
use exact_frac::OutOfMemory;
use fault_lines::Line;
use lattice::{HatchLine, Piece, Style};
use part_input::{Fault, Target};
use std::alloc::{AllocError, Global};

/// The line that is said of a drawing, and the line that tells that it couldn't be said.
#[derive(Drop)]
pub(crate) struct Summary {
    pub(crate) text: String,
    pub(crate) line: Line,
    ghost told: { line_text line ≡ write_line Target.Summary },
}

fn is_style(style: Style, piece: &Piece) -> bool
    ensures { result ≡ is_style style piece.now.style }
{
    match style {
        Style::Solid => matches!(piece.style, Style::Solid),
        Style::Dashed => matches!(piece.style, Style::Dashed),
        Style::Chain => matches!(piece.style, Style::Chain),
    }
}

/// How many of these pieces are drawn in the style.
fn count_pieces(pieces: &[Piece], style: Style) -> u64
    ensures count { result ≡ count_by (λ piece. is_style style piece.style) pieces.now }
    ensures size { result < 2 ^ 58 }
{
    let mut count = 0;
    for piece in pieces {
        if is_style(style, piece) {
            count += 1;
        }
    }
    count
}

/// How many pieces of all views are drawn in the style.
fn pieces_in(views: &[ViewDrawing], style: Style) -> u64
    requires { length views.now ≤ 12 }
    ensures { result ≡ pieces_in style views.now }
{
    let mut count = 0;
    for view in views {
        count += count_pieces(&view.pieces, style);
    }
    count
}

/// How many hatch lines these are.
fn count_hatches(hatches: &[HatchLine]) -> u64
    ensures count { result ≡ length hatches.now }
    ensures size { result < 2 ^ 58 }
{
    hatches.len() as u64
}

/// How many hatch lines all views have.
fn hatches_in(views: &[ViewDrawing]) -> u64
    requires { length views.now ≤ 12 }
    ensures { result ≡ hatches_in views.now }
{
    let mut count = 0;
    for view in views {
        count += count_hatches(&view.hatches);
    }
    count
}

/// The first half of the line.
fn first_half(
    alloc: Global,
    triangles: u32,
    views: usize,
    edges: u64,
    runs: u64,
) -> Result<String, AllocError>
    ensures { IfOk result (λ half. string_bytes half ≡ first_half triangles views edges runs) }
{
    format!(in alloc; "triangles {triangles} views {views} edges {edges} runs {runs}")
}

/// The second half of the line.
fn second_half(
    alloc: Global,
    bound: u64,
    solid: u64,
    dashed: u64,
    hatch: u64,
) -> Result<String, AllocError>
    ensures { IfOk result (λ half. string_bytes half ≡ second_half bound solid dashed hatch) }
{
    format!(in alloc; " bound {bound} solid {solid} dashed {dashed} hatch {hatch}")
}

/// The number of chain pieces, where there are any.
fn chain_part(alloc: Global, chain: u64) -> Result<String, AllocError>
    ensures { IfOk result (λ part. string_bytes part ≡ chain_part chain) }
{
    if chain == 0 {
        return Ok(String::new(alloc));
    }
    format!(in alloc; " chain {chain}")
}

/// The line with these numbers.
fn summary_line(
    alloc: Global,
    triangles: u32,
    views: usize,
    edges: u64,
    runs: u64,
    bound: u64,
    solid: u64,
    dashed: u64,
    hatch: u64,
    chain: u64,
) -> Result<String, AllocError>
    ensures { IfOk result (λ line. string_bytes line ≡ summary_line triangles views edges runs bound solid dashed hatch chain) }
{
    let mut line = first_half(alloc, triangles, views, edges, runs)?;
    line.push_str(&second_half(alloc, bound, solid, dashed, hatch)?)?;
    line.push_str(&chain_part(alloc, chain)?)?;
    line.push_str("\n")?;
    Ok(line)
}

/// The line that is said of the drawing, whose views have these numbers together.
fn line_of_drawing(
    alloc: Global,
    drawing: &Drawing,
    numbers: &ViewNumbers,
) -> Result<String, AllocError>
    requires few { length drawing.now.views.items ≤ 12 }
    requires summed { SumsViews drawing.now.solid drawing.now.job.crease drawing.now.job.views.items numbers.now }
    ensures { IfOk result (λ line. IsSummaryOf drawing.now (string_bytes line)) }
{
    let triangles = drawing.solid.triangles();
    let views = drawing.job.views.len();
    let ViewNumbers {
        edges,
        runs,
        bound,
        tests: _,
        cut_bound: _,
        cut_tests: _,
        cell_bound: _,
        cells: _,
    } = *numbers;
    let solid = pieces_in(&drawing.views, Style::Solid);
    let dashed = pieces_in(&drawing.views, Style::Dashed);
    let hatch = hatches_in(&drawing.views);
    let chain = pieces_in(&drawing.views, Style::Chain);
    summary_line(
        alloc, triangles, views, edges, runs, bound, solid, dashed, hatch, chain,
    )
}

/// The summary of the drawing, whose views have these numbers together.
pub(crate) fn summary_of(
    alloc: Global,
    drawing: &Drawing,
    numbers: &ViewNumbers,
) -> Result<Summary, OutOfMemory>
    requires few { length drawing.now.views.items ≤ 12 }
    requires summed { SumsViews drawing.now.solid drawing.now.job.crease drawing.now.job.views.items numbers.now }
    ensures { IfOk result (λ summary. IsSummaryOf drawing.now (string_bytes summary.text)) }
{
    let text = line_of_drawing(alloc, drawing, numbers)?;
    let line = draw_line(alloc, &Fault::WriteFault(Target::Summary))?;
    Ok(Summary { text, line })
}
