ghost use Rattle.std.specs.Prelude.{◌≡◌, IfOk, MatchResult};
ghost use Rattle.workings.specs.Figures.{figure_min, figure_max, figure_read};
ghost use Rattle.workings.specs.Workings.{Reads, Within};
ghost use Rattle.workings.specs.WorkFaults.{Unfit};

use crate::between::read_between;
use crate::figure::Figure;
use crate::ranged::Ranged;
use crate::work_fault::WorkFault;

impl<const MIN: u32, const MAX: u32> Ranged<MIN, MAX> {
    // The number that a text writes for a figure of this range.
    pub(crate) fn read(figure: Figure, text: &str) -> Result<Ranged<MIN, MAX>, WorkFault<'_>>
        requires least { figure_min figure ≡ MIN }
        requires most { figure_max figure ≡ MAX }
        ensures reads { MatchResult result (λ n. Reads figure text.now n.value) (Unfit figure text.now (figure_read figure text.now)) }
        ensures within { IfOk result (λ n. Within figure n.value) }
    {
        let value = read_between(text, MIN as u64, MAX as u64).map_err(|why| WorkFault::NoFigure {
            figure,
            text,
            why,
        })?;
        Ok(Ranged {
            value: value as u32,
        })
    }
}
