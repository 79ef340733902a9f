// Going on, a step at a time.
ghost use Rattle.std.specs.Prelude.{◌+◌, ◌≤◌, length, vec_capacity};
ghost use Rattle.command.specs.Machine.{State as Model};
ghost use Rattle.command.specs.Codes.{codes};
ghost use Rattle.command.specs.Breaks.{breaks_of};
ghost use Rattle.target.specs.Run.{going};
ghost use Rattle.processor.specs.Like.{Base, Like, CameTo};

use crate::state::State;
use command::breaks::Break;
use command::code::Instr;
use target::answers::Came;

impl State {
    // On by so many steps at most, till a break holds or it can't go on.
    // This is the only caller of `step`, which is then inlined: a second loop makes both slow.
    // The program and what came in are apart, as each goes on alone from `step`.
    pub(crate) fn goes(&mut self, program: &[Instr], fed: &[u32], breaks: &[Break], n: u64) -> Came
        requires program { length program.now ≤ 4096 }
        requires room { self.old.put + n ≤ vec_capacity self.old.log }
        ensures came { (b : Base) (s : Model) → Like b self.old s → CameTo b self.new result (going n (codes program.now) fed.now (breaks_of breaks.now) s 0) }
        ensures room { vec_capacity self.old.log ≤ vec_capacity self.new.log }
    {
        for by in 0..n {
            let wrote = match self.step(program, fed) {
                Ok(wrote) => wrote,
                Err(why) => {
                    return Came {
                        by,
                        hit: false,
                        why: Some(why),
                    };
                }
            };
            if self.any_holds(breaks, wrote) {
                return Came {
                    by: by + 1,
                    hit: true,
                    why: None,
                };
            }
        }
        Came {
            by: n,
            hit: false,
            why: None,
        }
    }
}
