// Where a text stops going along with the form.
ghost use Rattle.std.specs.Prelude.{◌≡◌, ◌+◌, ◌<◌, ◌^◌};
ghost use Rattle.image.specs.declared.Refusal.TheVariants.{Form};

use image::Refusal;

// How many bytes of a text go along with the form.
#[derive(Clone, Copy)]
pub struct Stop {
    pub along: usize,
}

impl Stop {
    // The same counted from so many bytes before.
    pub fn behind(self, at: usize) -> Stop
        requires { at + self.along < 2 ^ 64 }
        ensures { result ≡ record { along = at + self.along } }
    {
        Stop {
            along: at + self.along,
        }
    }
}

// A text that is not of the form is refused by how far it goes along.
impl From<Stop> for Refusal {
    ghost from_gives = { λ stop r. r ≡ Form stop.along };

    fn from(stop: Stop) -> Refusal {
        Refusal::Form(stop.along)
    }
}
