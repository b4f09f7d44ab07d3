//! The named lengths, each with the fact that it fits inline.
ghost use Rattle.std.proofs.Math.Dec.{lit≤};

use crate::length::{Const, InlineLength};

/// The length 0.
pub type U0 = Const<0>;

impl InlineLength for U0 {
    ghost fits = { lit≤ tt };
}

/// The length 1.
pub type U1 = Const<1>;

impl InlineLength for U1 {
    ghost fits = { lit≤ tt };
}

/// The length 2.
pub type U2 = Const<2>;

impl InlineLength for U2 {
    ghost fits = { lit≤ tt };
}

/// The length 3.
pub type U3 = Const<3>;

impl InlineLength for U3 {
    ghost fits = { lit≤ tt };
}

/// The length 4.
pub type U4 = Const<4>;

impl InlineLength for U4 {
    ghost fits = { lit≤ tt };
}

/// The length 5.
pub type U5 = Const<5>;

impl InlineLength for U5 {
    ghost fits = { lit≤ tt };
}

/// The length 6.
pub type U6 = Const<6>;

impl InlineLength for U6 {
    ghost fits = { lit≤ tt };
}

/// The length 7.
pub type U7 = Const<7>;

impl InlineLength for U7 {
    ghost fits = { lit≤ tt };
}

/// The length 8.
pub type U8 = Const<8>;

impl InlineLength for U8 {
    ghost fits = { lit≤ tt };
}

/// The length 9.
pub type U9 = Const<9>;

impl InlineLength for U9 {
    ghost fits = { lit≤ tt };
}

/// The length 10.
pub type U10 = Const<10>;

impl InlineLength for U10 {
    ghost fits = { lit≤ tt };
}

/// The length 11.
pub type U11 = Const<11>;

impl InlineLength for U11 {
    ghost fits = { lit≤ tt };
}

/// The length 12.
pub type U12 = Const<12>;

impl InlineLength for U12 {
    ghost fits = { lit≤ tt };
}

/// The length 13.
pub type U13 = Const<13>;

impl InlineLength for U13 {
    ghost fits = { lit≤ tt };
}

/// The length 14.
pub type U14 = Const<14>;

impl InlineLength for U14 {
    ghost fits = { lit≤ tt };
}

/// The length 15.
pub type U15 = Const<15>;

impl InlineLength for U15 {
    ghost fits = { lit≤ tt };
}

/// The length 16.
pub type U16 = Const<16>;

impl InlineLength for U16 {
    ghost fits = { lit≤ tt };
}

/// The length 17.
pub type U17 = Const<17>;

impl InlineLength for U17 {
    ghost fits = { lit≤ tt };
}

/// The length 18.
pub type U18 = Const<18>;

impl InlineLength for U18 {
    ghost fits = { lit≤ tt };
}

/// The length 19.
pub type U19 = Const<19>;

impl InlineLength for U19 {
    ghost fits = { lit≤ tt };
}

/// The length 20.
pub type U20 = Const<20>;

impl InlineLength for U20 {
    ghost fits = { lit≤ tt };
}

/// The length 21.
pub type U21 = Const<21>;

impl InlineLength for U21 {
    ghost fits = { lit≤ tt };
}

/// The length 22.
pub type U22 = Const<22>;

impl InlineLength for U22 {
    ghost fits = { lit≤ tt };
}

/// The length 23.
pub type U23 = Const<23>;

impl InlineLength for U23 {
    ghost fits = { lit≤ tt };
}

/// The length 24.
pub type U24 = Const<24>;

impl InlineLength for U24 {
    ghost fits = { lit≤ tt };
}

/// The length 25.
pub type U25 = Const<25>;

impl InlineLength for U25 {
    ghost fits = { lit≤ tt };
}

/// The length 26.
pub type U26 = Const<26>;

impl InlineLength for U26 {
    ghost fits = { lit≤ tt };
}

/// The length 27.
pub type U27 = Const<27>;

impl InlineLength for U27 {
    ghost fits = { lit≤ tt };
}

/// The length 28.
pub type U28 = Const<28>;

impl InlineLength for U28 {
    ghost fits = { lit≤ tt };
}

/// The length 29.
pub type U29 = Const<29>;

impl InlineLength for U29 {
    ghost fits = { lit≤ tt };
}

/// The length 30.
pub type U30 = Const<30>;

impl InlineLength for U30 {
    ghost fits = { lit≤ tt };
}

/// The length 31.
pub type U31 = Const<31>;

impl InlineLength for U31 {
    ghost fits = { lit≤ tt };
}

/// The length 32.
pub type U32 = Const<32>;

impl InlineLength for U32 {
    ghost fits = { lit≤ tt };
}

/// The length 33.
pub type U33 = Const<33>;

impl InlineLength for U33 {
    ghost fits = { lit≤ tt };
}

/// The length 34.
pub type U34 = Const<34>;

impl InlineLength for U34 {
    ghost fits = { lit≤ tt };
}

/// The length 35.
pub type U35 = Const<35>;

impl InlineLength for U35 {
    ghost fits = { lit≤ tt };
}

/// The length 36.
pub type U36 = Const<36>;

impl InlineLength for U36 {
    ghost fits = { lit≤ tt };
}

/// The length 37.
pub type U37 = Const<37>;

impl InlineLength for U37 {
    ghost fits = { lit≤ tt };
}

/// The length 38.
pub type U38 = Const<38>;

impl InlineLength for U38 {
    ghost fits = { lit≤ tt };
}

/// The length 39.
pub type U39 = Const<39>;

impl InlineLength for U39 {
    ghost fits = { lit≤ tt };
}

/// The length 40.
pub type U40 = Const<40>;

impl InlineLength for U40 {
    ghost fits = { lit≤ tt };
}

/// The length 41.
pub type U41 = Const<41>;

impl InlineLength for U41 {
    ghost fits = { lit≤ tt };
}

/// The length 42.
pub type U42 = Const<42>;

impl InlineLength for U42 {
    ghost fits = { lit≤ tt };
}

/// The length 43.
pub type U43 = Const<43>;

impl InlineLength for U43 {
    ghost fits = { lit≤ tt };
}

/// The length 44.
pub type U44 = Const<44>;

impl InlineLength for U44 {
    ghost fits = { lit≤ tt };
}

/// The length 45.
pub type U45 = Const<45>;

impl InlineLength for U45 {
    ghost fits = { lit≤ tt };
}

/// The length 46.
pub type U46 = Const<46>;

impl InlineLength for U46 {
    ghost fits = { lit≤ tt };
}

/// The length 47.
pub type U47 = Const<47>;

impl InlineLength for U47 {
    ghost fits = { lit≤ tt };
}

/// The length 48.
pub type U48 = Const<48>;

impl InlineLength for U48 {
    ghost fits = { lit≤ tt };
}

/// The length 49.
pub type U49 = Const<49>;

impl InlineLength for U49 {
    ghost fits = { lit≤ tt };
}

/// The length 50.
pub type U50 = Const<50>;

impl InlineLength for U50 {
    ghost fits = { lit≤ tt };
}

/// The length 51.
pub type U51 = Const<51>;

impl InlineLength for U51 {
    ghost fits = { lit≤ tt };
}

/// The length 52.
pub type U52 = Const<52>;

impl InlineLength for U52 {
    ghost fits = { lit≤ tt };
}

/// The length 53.
pub type U53 = Const<53>;

impl InlineLength for U53 {
    ghost fits = { lit≤ tt };
}

/// The length 54.
pub type U54 = Const<54>;

impl InlineLength for U54 {
    ghost fits = { lit≤ tt };
}

/// The length 55.
pub type U55 = Const<55>;

impl InlineLength for U55 {
    ghost fits = { lit≤ tt };
}

/// The length 56.
pub type U56 = Const<56>;

impl InlineLength for U56 {
    ghost fits = { lit≤ tt };
}

/// The length 57.
pub type U57 = Const<57>;

impl InlineLength for U57 {
    ghost fits = { lit≤ tt };
}

/// The length 58.
pub type U58 = Const<58>;

impl InlineLength for U58 {
    ghost fits = { lit≤ tt };
}

/// The length 59.
pub type U59 = Const<59>;

impl InlineLength for U59 {
    ghost fits = { lit≤ tt };
}

/// The length 60.
pub type U60 = Const<60>;

impl InlineLength for U60 {
    ghost fits = { lit≤ tt };
}

/// The length 61.
pub type U61 = Const<61>;

impl InlineLength for U61 {
    ghost fits = { lit≤ tt };
}

/// The length 62.
pub type U62 = Const<62>;

impl InlineLength for U62 {
    ghost fits = { lit≤ tt };
}

/// The length 63.
pub type U63 = Const<63>;

impl InlineLength for U63 {
    ghost fits = { lit≤ tt };
}

/// The length 64.
pub type U64 = Const<64>;

impl InlineLength for U64 {
    ghost fits = { lit≤ tt };
}

/// The length 128.
pub type U128 = Const<128>;

impl InlineLength for U128 {
    ghost fits = { lit≤ tt };
}

/// The length 256.
pub type U256 = Const<256>;

impl InlineLength for U256 {
    ghost fits = { lit≤ tt };
}

/// The length 512.
pub type U512 = Const<512>;

impl InlineLength for U512 {
    ghost fits = { lit≤ tt };
}

/// The length 1024.
pub type U1024 = Const<1024>;

impl InlineLength for U1024 {
    ghost fits = { lit≤ tt };
}

/// The length 2048.
pub type U2048 = Const<2048>;

impl InlineLength for U2048 {
    ghost fits = { lit≤ tt };
}
