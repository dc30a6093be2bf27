//! The law of accepted certificates.

ghost use Rattle.std.specs.Prelude.{ℕ, length};
ghost use Rattle.win_cert.specs.Laws.{ClaimsMove, GivesTrueEntries, WinsAsClaimed, WinsByCell};
ghost use Rattle.win_cert.specs.Verdicts.{Accepted};
ghost use Rattle.win_cert.specs.Writable.{HasBoard};
ghost use Rattle.win_cert.specs.declared.certs.Cert.{Cert};

/// The law of accepted certificates. If a certificate is accepted, its player wins the board as it
/// claims: with himself to move first if it claims semi, and even with the opponent to move
/// first if it claims full. Winning speaks of placing in turn and of a path of stones, and of no
/// rule of connections. More closely, each entry that a line gives is true on the board of its
/// scope. It does nothing.
pub fn accepted_certificates_win()
    ensures wins { (cert : Cert) → HasBoard cert → Accepted cert → WinsAsClaimed cert }
    ensures entries { (cert : Cert) → HasBoard cert → Accepted cert
        → GivesTrueEntries cert (length cert.lines) }
{}

/// The law of claimed moves. If a certificate is accepted and the line that it claims is a `move`,
/// the cell of this line is empty, and its player wins after a stone there against every reply. It
/// does nothing.
pub fn claimed_moves_win()
    ensures { (cert : Cert) (k : ℕ) → HasBoard cert → Accepted cert → ClaimsMove cert k
        → WinsByCell cert k }
{}
