//! Laws of who wins, and of elements.

ghost use Rattle.std.specs.Prelude.{◌≡◌, ◌⊎◌, ◌↔◌, ℕ, Bool, IsTrue, true};
ghost use Rattle.hex_cells.specs.Colours.{other_of};
ghost use Rattle.hex_cells.specs.declared.colours.Colour.{Colour};
ghost use Rattle.hex_board.specs.Joined.{Joined};
ghost use Rattle.hex_board.specs.Positions.{Position, Within, stones_of};
ghost use Rattle.hex_board.specs.Wins.{Wins, WinsAfterEach, WinsByOwn};
ghost use Rattle.hex_board.specs.Elements.{PlayerBoard, HasCell, Together};
ghost use Rattle.hex_board.specs.Elements.{edge_element, element_of, is_linked, is_tied};
ghost use Rattle.hex_board.specs.Places.{Near, is_near};

/// The laws of `Wins`: a joined player has won; who is to place wins by a stone after which he
/// wins; and he wins against the other's next stone, if there is room for one, if he wins after
/// each. If he is not joined, he wins in no other way. It does nothing.
pub fn wins_go_on()
    ensures joined { (player : Colour) (p : Position) (mover : Colour)
        → Joined p.size player (stones_of p player) → Wins player p mover }
    ensures own { (player : Colour) (p : Position) → WinsByOwn player p → Wins player p player }
    ensures other { (player : Colour) (p : Position)
        → WinsAfterEach player p → Wins player p (other_of player) }
    ensures own_means { (player : Colour) (p : Position) → Wins player p player
        → Joined p.size player (stones_of p player) ⊎ WinsByOwn player p }
    ensures other_means { (player : Colour) (p : Position) → Wins player p (other_of player)
        → Joined p.size player (stones_of p player) ⊎ WinsAfterEach player p }
{}

/// The laws of elements: two cells of one element are one cell, or stones that are linked, or
/// stones that are tied to edges of one element. A stone that is tied to an edge is in that edge's
/// element. Linked stones are in one element. It does nothing.
pub fn one_element_is_a_group()
    ensures together { (e : PlayerBoard) (x a b : ℕ)
        → Within e.board.size (stones_of e.board e.player)
        → HasCell e x a → HasCell e x b → Together e a b }
    ensures tied { (e : PlayerBoard) (second : Bool) (k : ℕ)
        → is_tied e second k ≡ true → HasCell e (edge_element e second) k }
    ensures linked { (e : PlayerBoard) (a b : ℕ)
        → Within e.board.size (stones_of e.board e.player)
        → is_linked e a b ≡ true → element_of e a ≡ element_of e b }
{}

/// A law, with nothing to run: the test `is_near`, which goes over all places of the board, passes
/// exactly if a place of one element lies beside a place of the other.
pub fn near_is_decided()
    ensures { (e : PlayerBoard) (x y : ℕ) → IsTrue (is_near e x y) ↔ Near e x y }
{}
