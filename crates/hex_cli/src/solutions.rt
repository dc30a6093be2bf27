//! Mode `solve`: what it answers to the bytes of a record.

ghost use Rattle.std.specs.Prelude.{◌≡◌, ◌⊎◌, ◌++◌, ◌*◌, ◌<◌, true, IfOk, IfSome, OnOk, codes};
ghost use Rattle.std.specs.Fmt.{decimal};
ghost use Rattle.hex_cells.specs.Colours.{colour_word};
ghost use Rattle.hex_cells.specs.Vertices.{vertex_of};
ghost use Rattle.win_cert.specs.Texts.{cert_text};
ghost use Rattle.win_cert.specs.Writable.{IsWritable};
ghost use Rattle.hex_cli.specs.SolveTexts.{IsOverText, IsSolveText, IsSolvedText, IsWritableAnswer};
ghost use Rattle.hex_cli.specs.SolveTexts.{best_cell_line, next_mover, solved_text};

use hex_cells::{Cell, Colour, Size, VERTEX_LEN, push_number, write_vertex};
use hex_devices::InputAnswer;
use hex_game::{Game, Step};
use hex_solve::{Solved, solve};
use sgf_game::read_game;
use std::alloc::{AllocError, Global};
use win_cert::{Cert, write};

/// How a position is solved, and what is told of it.
#[derive(Clone, Copy, Debug, PartialEq, Eq)]
pub struct SolveOptions {
    /// Whether connections are looked for.
    pub hsearch: bool,
    /// How many positions the solver may enter.
    pub budget: u64,
    /// Whether the cell that is thought best is told if the winner isn't.
    pub best: bool,
}

/// The answer of mode `solve`: who wins the position of the record's game, by these options; or
/// that the bytes are no record of a game.
pub fn solve_record(
    alloc: Global,
    options: &SolveOptions,
    input: &[u8],
) -> Result<InputAnswer, AllocError>
    ensures { IfOk result (λ a. IsSolveText options.now input.now a.text.items a.accepted) }
{
    match read_game(alloc, input)? {
        Some(game) => Ok(InputAnswer {
            text: game_text(alloc, options, &game)?,
            accepted: true,
        }),
        None => Ok(InputAnswer {
            text: b"not a game\n".to_vec(alloc)?,
            accepted: false,
        }),
    }
}

// The text for a game: who is joined on its board, or what the solver answers of it.
fn game_text(alloc: Global, options: &SolveOptions, game: &Game) -> Result<Vec<u8>, AllocError>
    ensures { IfOk result (λ text. IsOverText game.now text.items
        ⊎ IsSolvedText options.now game.now text.items) }
{
    let board = game.board();
    if let Some(winner) = board.winner() {
        return over_text(alloc, winner);
    }
    let mover = next_to_place(game.steps());
    let Ok(solved) = solve(alloc, board, mover, options.hsearch, options.budget) else {
        return Err(AllocError);
    };
    text_of(alloc, options.best, board.size(), &solved)
}

// The player to place after these steps: who didn't make the last, and Black before any.
fn next_to_place(steps: &[Step]) -> Colour
    ensures { result ≡ next_mover steps.now }
{
    match steps.last() {
        Some(step) => step.colour.other(),
        None => Colour::Black,
    }
}

// The line of a board on which a player is joined already.
fn over_text(alloc: Global, winner: Colour) -> Result<Vec<u8>, AllocError>
    ensures { IfOk result (λ text. text.items
        ≡ codes "over " ++ (colour_word winner ++ codes "\n")) }
{
    let mut text = b"over ".to_vec(alloc)?;
    text.extend_from_slice(winner.word())?;
    text.push(b'\n')?;
    Ok(text)
}

// The text for an answer of the solver, with the cell that is thought best or without.
fn text_of(alloc: Global, best: bool, size: Size, solved: &Solved) -> Result<Vec<u8>, AllocError>
    requires { IsWritableAnswer size solved.now }
    ensures { IfOk result (λ text. text.items ≡ solved_text best size solved.now) }
{
    match solved {
        Solved::Won { winner, cert } => won_text(alloc, *winner, cert),
        Solved::Unknown {
            spent,
            best: cell,
            ..
        } => unknown_text(alloc, *spent, if best { *cell } else { None }, size),
        Solved::TooLong { winner, lines } => long_text(alloc, *winner, *lines),
        Solved::Open { .. } => b"open\n".to_vec(alloc),
    }
}

// The winner, and his certificate below.
fn won_text(alloc: Global, winner: Colour, cert: &Cert) -> Result<Vec<u8>, AllocError>
    requires { IsWritable cert.now }
    ensures { IfOk result (λ text. text.items
        ≡ codes "won " ++ (colour_word winner ++ (codes "\n" ++ cert_text cert.now))) }
{
    let Ok(written) = write(alloc, cert) else {
        return Err(AllocError);
    };
    let mut text = b"won ".to_vec(alloc)?;
    text.extend_from_slice(winner.word())?;
    text.push(b'\n')?;
    text.extend_from_slice(written.as_slice())?;
    Ok(text)
}

// The budget that was spent, and the cell that is thought best, if it is told.
fn unknown_text(
    alloc: Global,
    spent: u64,
    best: Option<Cell>,
    size: Size,
) -> Result<Vec<u8>, AllocError>
    requires { IfSome best (λ cell. cell < size * size) }
    ensures { IfOk result (λ text. text.items
        ≡ codes "unknown " ++ (decimal spent ++ (codes "\n" ++ best_cell_line true size best))) }
{
    let mut text = b"unknown ".to_vec(alloc)?;
    push_number(alloc, &mut text, spent)?;
    text.push(b'\n')?;
    if let Some(cell) = best {
        push_best(&mut text, cell, size)?;
    }
    Ok(text)
}

// The line of the cell that is thought best.
fn push_best(text: &mut Vec<u8>, cell: Cell, size: Size) -> Result<(), AllocError>
    requires { cell < size * size }
    ensures { OnOk result (text.new.items
        ≡ text.old.items ++ (codes "best " ++ (vertex_of size cell ++ codes "\n"))) }
{
    let mut vertex = [0; VERTEX_LEN];
    let length = write_vertex(cell, size, &mut vertex);
    text.extend_from_slice(b"best ")?;
    text.extend_from_slice(&vertex[..length])?;
    text.push(b'\n')?;
    Ok(())
}

// The winner whose certificate would be too long, and how many lines it would have.
fn long_text(alloc: Global, winner: Colour, lines: u64) -> Result<Vec<u8>, AllocError>
    ensures { IfOk result (λ text. text.items ≡ codes "too long "
        ++ (colour_word winner ++ (codes " " ++ (decimal lines ++ codes "\n")))) }
{
    let mut text = b"too long ".to_vec(alloc)?;
    text.extend_from_slice(winner.word())?;
    text.push(b' ')?;
    push_number(alloc, &mut text, lines)?;
    text.push(b'\n')?;
    Ok(text)
}
