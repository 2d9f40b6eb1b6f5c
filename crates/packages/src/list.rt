ghost use Rattle.std.specs.Prelude.{◌≡◌, ◌<◌, ◌≤◌, map, length, take, slice_index_or, slice_set, MatchOption};
ghost use Rattle.packages.specs.declared.reading.Reading.TheVariants.{Empty};
ghost use Rattle.packages.specs.Memory.{SameMemory};
ghost use Rattle.packages.specs.Readings.{stored, emptied};

use crate::package::Package;
use crate::reading::Reading;

// The packages of a lot, in memory that the caller lends. Places count from 0.
#[derive(Drop)]
pub struct PackageList<'a, P: Package> {
    places: &'a mut [P],
}

// Functions of the slice: the methods below pass it on, a fixed form.
fn read_at<P: Package>(places: &[P], place: usize) -> Reading
    ensures { result ≡ slice_index_or (map P.Package.reading places.now) place Empty }
{
    places.get(place).map_or(Reading::Empty, |held| held.read())
}

fn put_at<P: Package>(places: &mut [P], place: usize, reading: Reading)
    ensures { map P.Package.reading places.new ≡ slice_set (map P.Package.reading places.old) place (stored P.Package.labeled reading) }
{
    // by index: of what is written through `get_mut` a proof knows the length alone
    if place < places.len() {
        places[place] = P::holding(reading);
    }
}

fn empty_first<P: Package>(places: &mut [P], count: usize)
    ensures { map P.Package.reading places.new ≡ emptied count (map P.Package.reading places.old) }
{
    // no `fill`: of a record that is `Copy` no proof knows that its clone is itself
    let count = count.min(places.len());
    let (first, _) = places.split_at_mut(count);
    for place in first.iter_mut() {
        *place = P::holding(Reading::Empty);
    }
}

impl<'a, P: Package> PackageList<'a, P> {
    pub fn new(places: &'a mut [P]) -> PackageList<'a, P>
        ensures holds { result.places.now ≡ places.old }
        ensures lends { result.places.ghost_name ≡ places.entry.ghost_name }
    {
        PackageList { places }
    }

    pub fn len(&self) -> usize
        ensures { result ≡ length self.now.places.now }
    {
        self.places.len()
    }

    // The first so many places, if there are as many.
    pub fn first(&self, count: usize) -> Option<&[P]>
        ensures { MatchOption result (length self.now.places.now < count)
            (λ places. (places.now ≡ take count self.now.places.now) × (count ≤ length self.now.places.now)) }
    {
        self.places.get(..count)
    }

    // Empty where there is no such place.
    pub fn at(&self, place: usize) -> Reading
        ensures { result ≡ slice_index_or (map P.Package.reading self.now.places.now) place Empty }
    {
        read_at(self.places, place)
    }

    // Nothing changes where there is no such place.
    pub fn put(&mut self, place: usize, reading: Reading)
        ensures memory { SameMemory self.old.places self.new.places }
        ensures after { map P.Package.reading self.new.places.now ≡ slice_set (map P.Package.reading self.old.places.now) place (stored P.Package.labeled reading) }
    {
        put_at(self.places, place, reading)
    }

    // Empties the first places, as many as there are.
    pub fn empty(&mut self, count: usize)
        ensures memory { SameMemory self.old.places self.new.places }
        ensures after { map P.Package.reading self.new.places.now ≡ emptied count (map P.Package.reading self.old.places.now) }
    {
        empty_first(self.places, count)
    }
}
