// The account of the packets held for a member, or by the group itself: what moves it, in one place.
ghost use Rattle.std.specs.Prelude.{◌≡◌};
ghost use Rattle.srt_group_model.specs.Accounts.{reserve, release, add_account, unlike, Fits};

use srt_group_model::Account;

// Of one that holds nothing.
pub const NO_PACKETS: Account = Account { reserved: 0 };

// A packet of so many is held.
pub fn reserve_packet(account: Account, count: u64) -> Account
    requires { Fits (reserve count account) }
    ensures { result ≡ reserve count account }
{
    Account {
        reserved: account.reserved + count,
    }
}

// A packet of so many is held no longer.
pub fn release_packet(account: Account, count: u64) -> Account
    ensures { result ≡ release count account }
{
    Account {
        reserved: account.reserved.saturating_sub(count),
    }
}

// What was held for a removed member is the group's own.
pub fn add_account(member: Account, own: Account) -> Account
    requires { Fits (add_account member own) }
    ensures { result ≡ add_account member own }
{
    Account {
        reserved: own.reserved + member.reserved,
    }
}

// Whether a word of it is another.
// Kept (4): the definitions' `unlike`, which the laws of its two callers name; a rule of the project keeps a public promise.
pub fn is_unlike(a: Account, b: Account) -> bool
    ensures { result ≡ unlike a b }
{
    a != b
}
