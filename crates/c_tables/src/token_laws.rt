//! Laws of the tokens of a C source. The functions do nothing; their contracts say the laws.
ghost use Rattle.c_tables.specs.Gaps.{SourcesAreLaid};
ghost use Rattle.c_tables.specs.TokenLaws.{TokensArePieces};

/// The tokens of a source are pieces of it, in the order of their places and apart from each other.
pub fn tokens_are_pieces()
    ensures { TokensArePieces }
{}

/// A source is its tokens and, before, between and behind them, white space and comments alone; and a token that begins
/// with a letter, a digit or `_` is the whole run of such bytes.
pub fn sources_are_laid()
    ensures { SourcesAreLaid }
{}
