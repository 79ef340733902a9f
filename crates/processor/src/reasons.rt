// Why there is no step from here, if there is none. Nothing changes.
ghost use Rattle.std.specs.Prelude.{◌≡◌};
ghost use Rattle.command.specs.Machine.{State as Model, does as made_of, step as stepped};
ghost use Rattle.command.specs.Plain.{status_number};
ghost use Rattle.command.specs.Codes.{code, codes};
ghost use Rattle.target.specs.Whys.{why_number};
ghost use Rattle.processor.specs.Like.{Base, Like};

use crate::state::State;
use command::code::Instr;
use target::answers::Why;

impl State {
    fn not_done(&self, i: Instr, fed: &[u32]) -> Option<Why>
        ensures { (b : Base) (s : Model) → Like b self.now s → why_number result ≡ status_number (made_of s fed.now (code i)).status }
    {
        match i {
            Instr::Reckon(op, k, j) => self.reckoned(op, k, j).err(),
            Instr::Read(_, j, n) => self.word_place(j, n).err(),
            Instr::Write(_, j, n) => self.word_place(j, n).err(),
            Instr::Call(_) => self.call_place().err(),
            Instr::Return => self.return_place().err(),
            Instr::In(_) => self.incoming(fed).err(),
            Instr::Halt => Some(Why::Halted),
            _ => None,
        }
    }

    pub(crate) fn why_not(&self, program: &[Instr], fed: &[u32]) -> Option<Why>
        ensures { (b : Base) (s : Model) → Like b self.now s → why_number result ≡ status_number (stepped (codes program.now) fed.now s).status }
    {
        match self.instr(program) {
            Ok(i) => self.not_done(i, fed),
            Err(why) => Some(why),
        }
    }
}
