// What a volume is and what drive it stands on, which the state keeps and every call goes by; and what a format or a recovery is
// given of both.
#![tactic(auto)]

ghost use Rattle.std.specs.Prelude.{◌≡◌};
ghost use Rattle.geometry.specs.Geometry.{pieces_for, piece_of, index_of, used_bytes, geometry_of, settings_of, geometry_fits, drive_fits};

// N sectors, of which the host sees L blocks through a map of P pieces.
#[derive(Clone, Copy)]
pub struct Geometry {
    pub n: u32,
    pub l: u32,
}

// What the disk is made of: the sectors a track, the tracks, and how many sectors pass by while the head changes to another
// track. It decides where a commit's sectors go, and nothing else.
#[derive(Clone, Copy)]
pub struct Drive {
    pub sectors: u32,
    pub tracks: u32,
    pub switch: u32,
}

// What a format or a recovery is given. N comes from the image.
#[derive(Clone, Copy)]
pub struct Settings {
    pub l: u32,
    pub drive: Drive,
}

impl Settings {
    // The volume of n sectors that these settings ask for.
    pub fn volume(self, n: u32) -> Geometry
        ensures { result ≡ geometry_of n self }
    {
        Geometry { n, l: self.l }
    }
}

impl Geometry {
    // Bytes of a sector, and of a block.
    pub const SECTOR: usize = 512;
    // The same in words of four bytes.
    pub const WORDS: usize = Geometry::SECTOR / 4;
    // Map entries a piece.
    pub const ENTRIES: u32 = 96;
    // The same as a length.
    pub const PIECE_ENTRIES: usize = Geometry::ENTRIES as usize;
    // Branches that a map sector has room for: the branch limit.
    pub const BRANCHES: u32 = 24;
    // The same as a length.
    pub const BRANCH_ROOM: usize = Geometry::BRANCHES as usize;
    // Branches that decide for a fold, one more than there is room for. No more are listed.
    pub const FOLDING_BRANCHES: usize = Geometry::BRANCH_ROOM + 1;
    // The greatest L and N.
    pub const MOST_BLOCKS: u32 = 24_576;

    pub const MOST_SECTORS: u32 = 65_536;
    // The most pieces: those of the greatest L.
    pub const MOST_PIECES: usize = (Geometry::MOST_BLOCKS / Geometry::ENTRIES) as usize;
    // Bytes of the largest used map.
    pub const MOST_USED_BYTES: usize = Geometry::MOST_SECTORS as usize / 8;
    // Blocks that a commit names at most, and the sectors that it then takes: one a block and one a piece.
    pub const COMMIT_BLOCKS: usize = 64;

    pub const COMMIT_SECTORS: usize = Geometry::COMMIT_BLOCKS + Geometry::MOST_PIECES;
    // Tables that the code makes for itself are cleared first, so volumes of few sectors have shorter ones. The sectors of a small and of
    // a medium volume, at most.
    pub const SMALL: u32 = 1_024;

    pub const MEDIUM: u32 = 16_384;
    // Bytes of a small volume's largest used map.
    pub const SMALL_USED_BYTES: usize = Geometry::SMALL as usize / 8;

    // The pieces that a map of l entries is cut into: P, l / 96 rounded up.
    pub fn pieces_for(l: u32) -> u32
        ensures { result ≡ pieces_for l }
    {
        let padded = l as u64 + (Geometry::ENTRIES - 1) as u64;
        (padded / Geometry::ENTRIES as u64) as u32
    }

    // The piece that holds a block's entry.
    pub fn piece_of(block: u32) -> u32
        ensures { result ≡ piece_of block }
    {
        block / Geometry::ENTRIES
    }

    // Where in its piece a block's entry stands.
    pub fn index_of(block: u32) -> u32
        ensures { result ≡ index_of block }
    {
        block % Geometry::ENTRIES
    }

    // What a recovery of this volume on that drive is given.
    pub fn settings(self, drive: Drive) -> Settings
        ensures { result ≡ settings_of self drive }
    {
        Settings { l: self.l, drive }
    }

    // Bytes of the used map: one bit a sector.
    pub fn used_bytes(self) -> u32
        ensures { result ≡ used_bytes self.n }
    {
        let padded = self.n as u64 + 7;
        (padded / 8) as u32
    }

    // L is 1 to 24,576; N is 2P + 2 to 65,536.
    pub fn fits(self) -> bool
        ensures { result ≡ geometry_fits self }
    {
        let n = self.n;
        let l = self.l;
        if l < 1 {
            return false;
        }
        if Geometry::MOST_BLOCKS < l {
            return false;
        }
        let least = 2 * Geometry::pieces_for(l) + 2;
        if n < least {
            return false;
        }
        n <= Geometry::MOST_SECTORS
    }
}

impl Drive {
    // The most sectors a track and the most tracks, and the longest head switch.
    pub const MOST_PER_TRACK: u32 = 65_536;

    pub const MOST_TRACKS: u32 = 256;

    pub const LONGEST_SWITCH: u32 = 255;

    // Sectors a track are 1 to 65,536, tracks 1 to 256, the head switch 0 to 255, and the tracks hold n sectors. The ranges are
    // judged first, so that the product is a number.
    pub fn fits(self, n: u32) -> bool
        ensures { result ≡ drive_fits n self }
    {
        let sectors = self.sectors;
        let tracks = self.tracks;
        let switch = self.switch;
        if sectors < 1 {
            return false;
        }
        if Drive::MOST_PER_TRACK < sectors {
            return false;
        }
        if tracks < 1 {
            return false;
        }
        if Drive::MOST_TRACKS < tracks {
            return false;
        }
        if Drive::LONGEST_SWITCH < switch {
            return false;
        }
        sectors * tracks == n
    }
}
