//! The law of lines: the four rules of connection as lines of a certificate.

ghost use Rattle.win_cert.specs.RuleLines.{JoinOverCell, JoinOverGroup, OrOverMany, OrOverThree};
ghost use Rattle.win_cert.specs.RuleLines.{OrOverTwo, StandsForMany, StandsForThree, StandsForTwo};
ghost use Rattle.win_cert.specs.declared.lines.Line.{Line};

/// The law of lines. Of valid entries that earlier lines gave in its scope, a line has no reason
/// against it exactly if its rule of connection applies. Here `and` is the rule of AND over a
/// group, `key` that over an empty cell, and `or` the rule of OR. (Of `adj` the test and the rule
/// are one, `is_near`.) So who reads the reasons against lines has read the rules, and the other
/// way round. It does nothing.
pub fn lines_are_rules()
    ensures groups { StandsForTwo Line.And JoinOverGroup }
    ensures cells { StandsForTwo Line.Key JoinOverCell }
    ensures twos { StandsForTwo Line.Or2 OrOverTwo }
    ensures threes { StandsForThree Line.Or3 OrOverThree }
    ensures many { StandsForMany Line.OrMany OrOverMany }
{}
