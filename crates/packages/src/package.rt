ghost use Rattle.std.specs.Prelude.{◌≡◌, Bool};
ghost use Rattle.packages.specs.declared.reading.Reading.{Reading};
ghost use Rattle.packages.specs.Readings.{stored};

use crate::reading::Reading;

// A record of the lender's memory that holds one package. Its meaning is a reading. A record that has no room for a label drops it.
pub trait Package: Copy {
    ghost reading: { Self → Reading };

    ghost labeled: { Bool };

    fn read(&self) -> Reading
        ensures { result ≡ reading self.now };

    fn holding(held: Reading) -> Self
        ensures { reading result ≡ stored labeled held };
}
