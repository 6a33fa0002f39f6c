ghost use Rattle.std.specs.Prelude.{◌≡◌, ◌+◌, ◌-◌, ◌<◌, true, [], IsOk};
ghost use Rattle.market.specs.declared.calls.Answer.TheVariants.{Done};
ghost use Rattle.market.specs.declared.calls.Call.TheVariants.{Deposit, Withdraw};
ghost use Rattle.market.specs.Calls.{deposit_changed};
ghost use Rattle.market.specs.Grounds.{deposit_grounds, withdraw_grounds};
ghost use Rattle.venue.specs.Obeys.{Obeys, Passes, as_answer};
ghost use Rattle.venue.specs.Reads.{market_of};

use crate::grounds::check_not_closed;
use crate::judging::judge_member;
use crate::state::Venue;
use margin::keeper::Keeper;
use market::members::Mode;
use market::refusals::Refusal;

/// The most that a deposit may come to, in half-rupees.
const HIGHEST_DEPOSIT: u128 = 1_000_000_000_000;

impl<K: Keeper> Venue<K> {
    /// Adds to a member's deposit, and judges the member.
    pub fn deposit(&mut self, member: u8, amount: u64) -> Result<(), Refusal>
        ensures { Obeys K.Keeper.charge K.Keeper.REACH (Deposit member amount) (market_of K.Keeper.sheet self.old) (market_of K.Keeper.sheet self.new) (as_answer (λ _. Done) result) [] [] }
    {
        let deposit = self.check_deposit(member, amount)?;
        self.change_deposit(member, deposit);
        Ok(())
    }

    /// Takes from a member's deposit what its need leaves free, and judges the member.
    pub fn withdraw(&mut self, member: u8, amount: u64) -> Result<(), Refusal>
        ensures { Obeys K.Keeper.charge K.Keeper.REACH (Withdraw member amount) (market_of K.Keeper.sheet self.old) (market_of K.Keeper.sheet self.new) (as_answer (λ _. Done) result) [] [] }
    {
        let deposit = self.check_withdraw(member, amount)?;
        self.change_deposit(member, deposit);
        Ok(())
    }

    // Answers what the deposit comes to.
    fn check_deposit(&self, member: u8, amount: u64) -> Result<u64, Refusal>
        ensures passes { Passes (deposit_grounds (market_of K.Keeper.sheet self.now) member amount) (((market_of K.Keeper.sheet self.now).members member).deposit + amount) result }
        ensures admitted { IsOk result → (member < 32) × (((market_of K.Keeper.sheet self.now).members member).admitted ≡ true) }
    {
        check_not_closed(self.phase)?;
        let row = self.members.admitted(member)?;
        if amount == 0 {
            return Err(Refusal::AmountOutOfRange);
        }
        if u128::from(row.deposit) + u128::from(amount) > HIGHEST_DEPOSIT {
            return Err(Refusal::AmountOutOfRange);
        }
        Ok(row.deposit + amount)
    }

    // Answers what is left of the deposit.
    fn check_withdraw(&self, member: u8, amount: u64) -> Result<u64, Refusal>
        ensures passes { Passes (withdraw_grounds K.Keeper.charge K.Keeper.REACH (market_of K.Keeper.sheet self.now) member amount) (((market_of K.Keeper.sheet self.now).members member).deposit - amount) result }
        ensures admitted { IsOk result → (member < 32) × (((market_of K.Keeper.sheet self.now).members member).admitted ≡ true) }
    {
        check_not_closed(self.phase)?;
        let row = self.members.admitted(member)?;
        if amount == 0 || amount > row.deposit {
            return Err(Refusal::AmountOutOfRange);
        }
        if row.mode == Mode::Reduction {
            return Err(Refusal::DepositNeeded);
        }
        let left = row.deposit - amount;
        if 20 * u128::from(self.keeper.need(member)) >= 19 * u128::from(left) {
            return Err(Refusal::DepositNeeded);
        }
        Ok(left)
    }

    // Only this member's row is changed.
    fn change_deposit(&mut self, member: u8, deposit: u64)
        requires { (member < 32) × (((market_of K.Keeper.sheet self.old).members member).admitted ≡ true) }
        ensures { market_of K.Keeper.sheet self.new ≡ deposit_changed K.Keeper.charge K.Keeper.REACH (market_of K.Keeper.sheet self.old) member deposit }
    {
        let need = self.keeper.need(member);
        if let Some(row) = &mut self.members.rows[usize::from(member)] {
            row.deposit = deposit;
            judge_member(row, need);
        }
    }
}
