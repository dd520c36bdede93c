//! The law of a session's lines over a sound image.
ghost use Rattle.replay_core.specs.Laws.{SoundLinesAreWhole};

/// Over an image that is known to be sound, a line's verdict is that of its window's instants, and no start place in it is cut down.
pub fn sound_lines_are_whole()
    ensures { SoundLinesAreWhole }
{}
