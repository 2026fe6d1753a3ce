//! The ticket of a held order.
ghost use Rattle.std.specs.Prelude.{◌≡◌};
ghost use Rattle.house.specs.Spending.{handed_back};

use book::refusal::Refusal;

/// A held order's house number and order number. It cannot be copied or let go: it is handed back to Send or to Drop.
pub struct Ticket {
    pub(crate) house: u32,
    pub(crate) order: u64,
}

impl Ticket {
    /// The order number.
    pub fn order(&self) -> u64
        ensures { result ≡ self.now.order }
    {
        self.order
    }

    /// Takes a spent ticket apart.
    pub(crate) fn end(self) {
        let Ticket { house: _, order: _ } = self;
    }

    /// Takes the ticket apart where its call was granted, and hands it back where it was refused.
    pub(crate) fn after(self, spent: Result<(), Refusal>) -> Result<(), (Ticket, Refusal)>
        ensures { result ≡ handed_back self spent }
    {
        match spent {
            Ok(()) => {
                self.end();
                Ok(())
            }
            Err(why) => Err((self, why)),
        }
    }
}
