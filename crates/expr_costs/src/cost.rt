//! What is counted before an instruction or a call.
ghost use Rattle.std.specs.Prelude.{◌≡◌, ℕ, IfOk, false};
ghost use Rattle.expr_costs.specs.Measures.{CostUpTo};
ghost use Rattle.expr_costs.specs.Payments.{Covers};
ghost use Rattle.expr_limits.specs.MeterView.{Charges};
ghost use Rattle.expr_limits.specs.Rooms.{TakesWork, is_limited, least_steps};

use expr_limits::Meter;

/// The cost of an instruction or a call.
#[derive(Clone, Copy, Debug, Drop)]
pub struct Cost {
    /// The number of steps.
    pub work: u128,
    /// The weight of the values that there must be room for.
    pub room: u128,
}

/// A cost of this much work, and of no room.
#[inline(always)]
pub(crate) fn work_cost(work: u128) -> Cost
    ensures work { result.work ≡ work }
    ensures room { result.room ≡ 0 }
{
    Cost { work, room: 0 }
}

/// A cost of this much work and this much room.
#[inline(always)]
pub(crate) fn work_and_room(work: u128, room: u128) -> Cost
    ensures work { result.work ≡ work }
    ensures room { result.room ≡ room }
{
    Cost { work, room }
}

/// A payment for work that is about to be done. Only counting the work makes one, and doing it takes one.
#[derive(Debug, Drop)]
pub struct Paid {
    steps: u64,
    room: u64,
    is_counted: bool,
}

impl Paid {
    /// The payment of a meter that counts nothing.
    #[inline(always)]
    pub fn unmetered<M: Meter>(_meter: &M) -> Paid
        requires { is_limited (M.metered _meter.now).room ≡ false }
        ensures { (steps room : ℕ) → Covers result steps room }
    {
        Paid {
            steps: 0,
            room: 0,
            is_counted: false,
        }
    }

    /// Takes these steps, and pays for them and for this room.
    ///
    /// # Errors
    ///
    /// Returns the limit that this would exceed.
    #[inline(always)]
    pub fn counted<M: Meter>(meter: &mut M, steps: u64, room: u64) -> Result<Paid, M::Stop>
        ensures counts { Charges M.limit result (TakesWork steps room) (M.metered meter.old)
            (M.metered meter.new) }
        ensures covers { IfOk result (λ paid. Covers paid steps room) }
    {
        meter.work(steps, room)?;
        Ok(Paid {
            steps,
            room,
            is_counted: true,
        })
    }
}

/// Pays for an instruction or a call before it runs. The cost was computed up to a bound, the number of steps
/// left. None means that it is above the bound.
///
/// # Errors
///
/// Returns the limit that the cost exceeds.
#[inline(always)]
#[tactic(auto, using(crate::proofs::Charging::overrun_begins, crate::proofs::Charging::counts_nothing))]
pub fn charge<M: Meter>(meter: &mut M, cost: Option<Cost>, bound: u64) -> Result<Paid, M::Stop>
    requires { bound ≡ least_steps (M.metered meter.old).room }
    ensures counts { (work room : ℕ) → CostUpTo bound work room cost
        → Charges M.limit result (TakesWork work room) (M.metered meter.old) (M.metered meter.new) }
    ensures covers { (work room : ℕ) → CostUpTo bound work room cost
        → IfOk result (λ paid. Covers paid work room) }
{
    if let Some(cost) = cost {
        if cost.work <= bound as u128 && cost.room <= bound as u128 {
            return Paid::counted(meter, cost.work as u64, cost.room as u64);
        }
    }
    meter.overrun()?;
    Ok(Paid::unmetered(meter))
}
