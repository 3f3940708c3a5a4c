// What a call is handed beside the state: the sectors and blocks to lend, and the drive of a format or a recover.
use crate::calls;
use geometry::{Drive, Geometry};
use paper::keywords::Keywords;
use paper::request::Request;

#[derive(Clone, Copy)]
pub struct Given {
    pub size: Geometry,
    pub drive: Drive,
}

// All sectors on one track.
pub fn one_track(n: u32) -> Drive {
    Drive {
        sectors: n,
        tracks: 1,
        switch: 0,
    }
}

// What makes the product n with x; 0, which no drive has, where nothing does.
fn cofactor(n: u32, x: u32) -> u32 {
    if x == 0 || n % x != 0 {
        return 0;
    }
    n / x
}

// The tracks that keywords name on n sectors, or those of another drive. Of track= and tracks= one is enough.
fn tracks_named(words: Keywords, n: u32, other: Drive) -> Drive {
    match (words.track, words.tracks) {
        (Some(sectors), tracks) => Drive {
            sectors,
            tracks: tracks.unwrap_or(cofactor(n, sectors)),
            ..other
        },
        (None, Some(tracks)) => Drive {
            sectors: cofactor(n, tracks),
            tracks,
            ..other
        },
        (None, None) => other,
    }
}

// The drive that keywords name on n sectors; what they leave open is as in another.
fn drive_named(words: Keywords, n: u32, other: Drive) -> Drive {
    let named = tracks_named(words, n, other);
    Drive {
        switch: words.switch.unwrap_or(named.switch),
        ..named
    }
}

// The volume that a format asks for, on one track unless it says more.
pub fn of_format(r: Request) -> Given {
    let size = Geometry {
        n: r.second,
        l: r.first,
    };
    let drive = drive_named(r.keywords, r.second, one_track(r.second));
    Given { size, drive }
}

// The volume that is there, on the drive that it was formatted for unless a recover says another.
pub fn of_volume(r: Request, size: Geometry, formatted: Drive) -> Given {
    let drive = drive_named(r.keywords, size.n, formatted);
    Given { size, drive }
}

// A size that volumes have, of more sectors than the program holds.
pub fn is_too_large(size: Geometry) -> bool {
    size.n > calls::HELD && size.fits()
}

// What is handed over. A format that is too large comes this far only where its settings are refused: it is handed the sectors that
// are held, and settings that no drive has.
pub fn handed(asked: Given) -> Given {
    let size = asked.size;
    if is_too_large(size) {
        let held = Geometry {
            n: calls::HELD,
            l: size.l,
        };
        let drive = Drive {
            sectors: 0,
            tracks: 0,
            switch: 0,
        };
        return Given { size: held, drive };
    }
    asked
}
