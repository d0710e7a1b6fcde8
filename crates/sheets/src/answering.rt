// One line in, one answer out: the text, the turn and the house layer, one after another.
ghost use Rattle.std.specs.Prelude.{◌≡◌, ◌≤◌, length};
ghost use Rattle.frames.specs.Reading.{reading};
ghost use Rattle.sheets.specs.Lines.{by_turn, after_turn, by_text, after_text, counted, answer_bytes, Answered, LineAnswered};
ghost use Rattle.sheets.specs.Views.{sheet_of};
ghost use Rattle.answers.specs.Answers.{Fronted};

use crate::fault::{Fault, LineFault};
use crate::sheet::Sheet;
use answers::{Layer, Reply, write_refused, write_taken};
use frames::{Frame, FrameKind, read_frame};
use refusals::Refusal;

// What an answer has in the place of a kind, where the line is no frame.
const NO_KIND: u8 = 0xFF;

// How many characters the answer to a refused line has.
const REFUSED_LENGTH: usize = 7;

impl Sheet {
    // The turn and the house layer: what a frame is answered with, or its fault.
    fn answer_frame(&mut self, frame: Frame) -> Result<Reply, Fault>
        ensures value { result ≡ by_turn (sheet_of self.old) frame }
        ensures after { sheet_of self.new ≡ after_turn (sheet_of self.old) frame }
    {
        let kind = frame.kind();
        let reply = self.act(frame).ok_or(Fault::Turn { kind })?;
        reply.map_err(|cause| Fault::House { kind, cause })
    }

    // Counts one more line.
    fn count_line(&mut self)
        ensures { sheet_of self.new ≡ counted (sheet_of self.old) }
    {
        self.lines = self.lines.saturating_add(1);
    }

    // Counts a line, and takes it through all three layers: the kind of its frame and what that is answered with, or the
    // line's fault.
    fn answer_text(&mut self, line: &[u8]) -> Result<(FrameKind, Reply), Fault>
        ensures value { result ≡ by_text (counted (sheet_of self.old)) (reading line.now) }
        ensures after { sheet_of self.new ≡ after_text (counted (sheet_of self.old)) (reading line.now) }
    {
        self.count_line();
        let frame = read_frame(line)?;
        let reply = self.answer_frame(frame)?;
        Ok((frame.kind(), reply))
    }

    // Takes one line, writes its answer to the front of a buffer of at least 16 bytes, and answers how many bytes it
    // wrote. A refused line has its answer written too, seven bytes; a buffer that is too short stays as it was.
    pub fn take_line(&mut self, line: &[u8], answer: &mut [u8]) -> Result<usize, LineFault>
        ensures { LineAnswered (sheet_of self.old) (sheet_of self.new) line.now answer.old answer.new result }
    {
        if answer.len() < 16 {
            return Err(LineFault::AnswerBuffer);
        }
        let answered = self.answer_text(line);
        let written = write_answer(answered, answer);
        // A `match`: a proof does not close through the closure of a `map_err` that reads the count of lines.
        match answered {
            Ok(_) => Ok(written),
            Err(fault) => Err(LineFault::Refused {
                line: self.lines,
                fault,
            }),
        }
    }

    // Takes one line, and gives its answer line, which is written to the front of a buffer: of a refused line too.
    #[tactic(auto, using(crate::proofs::AnswerLines::answered))]
    pub fn answer<'a>(&mut self, line: &[u8], buffer: &'a mut [u8; 16]) -> &'a [u8]
        ensures { Answered (sheet_of self.old) (sheet_of self.new) line.now result.now }
    {
        let written = self.take_line(line, buffer).unwrap_or(REFUSED_LENGTH);
        &buffer[..written]
    }
}

// Writes the answer to a line to the front of a buffer, whose rest stays, and answers its length.
fn write_answer(answered: Result<(FrameKind, Reply), Fault>, buffer: &mut [u8]) -> usize
    requires { 16 ≤ length buffer.old }
    ensures { Fronted (answer_bytes answered) buffer.old buffer.new result }
{
    let written = match answered {
        Ok((kind, reply)) => write_taken(kind.into(), reply, buffer),
        Err(Fault::Text(_)) => write_refused(NO_KIND, Refusal::NotAFrame, Layer::Text, buffer),
        Err(Fault::Turn { kind }) => write_refused(
            kind.into(),
            Refusal::OutOfTurn,
            Layer::Turn,
            buffer,
        ),
        Err(Fault::House { kind, cause }) => write_refused(
            kind.into(),
            cause,
            Layer::House,
            buffer,
        ),
    };
    written.unwrap()
}
