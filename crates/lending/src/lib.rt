// What a caller lends to a call: the image and the tables of a volume.
#![tactic(auto)]

ghost use Rattle.std.specs.Prelude.{◌≡◌};
ghost use Rattle.lending.specs.Lending.{held, seen, lengths_of, lengths_held};

// The tables, to look at: L map words, P live places, P live numbers, and the used map.
#[derive(Clone, Copy)]
pub struct Tables<'a> {
    pub map: &'a [u32],
    pub places: &'a [u32],
    pub numbers: &'a [u32],
    pub used: &'a [u8],
}

// The lengths of what is lent, the image in bytes and the others in elements.
#[derive(Clone, Copy)]
pub struct Lengths {
    pub image: usize,
    pub map: usize,
    pub places: usize,
    pub numbers: usize,
    pub used: usize,
}

impl<'a> Tables<'a> {
    // With the length of an image.
    pub fn lengths(&self, image: usize) -> Lengths
        ensures { result ≡ lengths_of image self.now }
    {
        Lengths {
            image,
            map: self.map.len(),
            places: self.places.len(),
            numbers: self.numbers.len(),
            used: self.used.len(),
        }
    }
}

// All that a storing call is lent: the image, and the tables.
#[derive(Drop)]
pub struct Memory<'a> {
    pub image: &'a mut [u8],
    pub map: &'a mut [u32],
    pub places: &'a mut [u32],
    pub numbers: &'a mut [u32],
    pub used: &'a mut [u8],
}

impl<'a> Memory<'a> {
    pub fn image(&self) -> &[u8]
        ensures { result.now ≡ self.now.image.now }
    {
        &*self.image
    }

    pub fn lengths(&self) -> Lengths
        ensures { result ≡ lengths_held self.now }
    {
        Lengths {
            image: self.image.len(),
            map: self.map.len(),
            places: self.places.len(),
            numbers: self.numbers.len(),
            used: self.used.len(),
        }
    }

    pub fn tables(&self) -> Tables<'_>
        ensures { seen self.now.image.now result ≡ held self.now }
    {
        Tables {
            map: &*self.map,
            places: &*self.places,
            numbers: &*self.numbers,
            used: &*self.used,
        }
    }
}

// The tables to change, without an image: what fills them in looks at an image or at none.
#[derive(Drop)]
pub struct TablesMut<'a> {
    pub map: &'a mut [u32],
    pub places: &'a mut [u32],
    pub numbers: &'a mut [u32],
    pub used: &'a mut [u8],
}
