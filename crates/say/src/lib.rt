// An answer's line printed, for the gate's programs. The text of a line is command_lines'. No contract can say what standard output
// takes, so that there `print` promises the line's length alone. Assumes that the kit's write does what it says.
#![tactic(auto)]

ghost use Rattle.std.specs.Prelude.{◌≡◌, length, OnOk};
ghost use Rattle.std.specs.Io.KnownBytes.{Appends};
ghost use Rattle.command_lines.specs.Answers.{printed};

use command_lines::Answer;
use std::io;
use std::io::Write;

// Prints an answer's line, and answers how many bytes it has, 12 at the most, and whether it was written. A writer whose bytes are
// known then holds the line after what it held.
pub fn print<W: Write>(out: &mut W, answer: Answer) -> (usize, io::Result<()>)
    ensures line_length { result.0 ≡ length (printed answer) }
    ensures written { OnOk result.1 (Appends (W.contents out.old) (W.contents out.new) (printed answer)) }
{
    let line = command_lines::answer_line(answer);
    (line.len(), out.write_all(line.as_slice()))
}
